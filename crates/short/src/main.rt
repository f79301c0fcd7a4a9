// Reads network.bin and, on standard input, one fault; prints the answer, or the refusal.
#![tactic(auto)]

ghost use Rattle.std.specs.Prelude.{◌≡◌, ◌≤◌, IsTrue, length};
ghost use Rattle.std.specs.Io.KnownBytes.{Appends};
ghost use Rattle.decimal.specs.Wrote.{Wrote};
ghost use Rattle.text.specs.Text.{printed, text_most};
ghost use Rattle.short.specs.Limits.{fault_most};

use std::io::Write;

// What is read of the fault at most: all of a sound one, and a byte more, so that a longer one is refused and not cut to a sound one.
const FAULT: usize = 21;

// Room for the numbers of 256 boards, and for every text.
const NUMBERS: usize = 6157;

const PAGE: usize = 161665;

// What may not change: its clause says that FAULT is the paper's limit. An array of main's would say nothing of it.
fn fault_space() -> [u8; FAULT]
    ensures { fault_most ≡ length result }
{
    [0; FAULT]
}

// All that the program does between reading and writing.
fn answer(out: &mut [u8], net: &[u8], flt: &[u8]) -> usize
    requires { text_most ≤ length out.old }
    ensures { Wrote 0 (printed net.now flt.now) out.old out.new result }
{
    let mut space = [0i64; NUMBERS];
    let given = solve::solve(net, flt, &mut space);
    text::print(out, net, flt, given, &space)
}

// Where it answers true, the answer stands on standard output behind what was there. What `earth` does alike is `console::print`; over a closure for the answer it would be no plainer. What may not change: its clause speaks of `true`, so no Result.
fn show<O: Write, E: Write>(stdout: &mut O, stderr: &mut E, net: &[u8], flt: &[u8]) -> bool
    ensures { IsTrue result → Appends (O.contents stdout.old) (O.contents stdout.new) (printed net.now flt.now) }
{
    let mut out = [0u8; PAGE];
    let end = answer(&mut out, net, flt);
    console::print(
        stdout,
        stderr,
        &out[..end],
        b"short: the answer could not be written to standard output\n",
    )
}

fn main(rt: HostRuntime) {
    let mut net = console::file_space();
    let n = console::network(&rt, &mut net);
    let mut flt = fault_space();
    let m = console::read_full(&mut rt.stdin(), &mut flt);
    show(&mut rt.stdout(), &mut rt.stderr(), &net[..n], &flt[..m]);
}
