// Reads network.bin and, on standard input, a label of twelve bytes; prints where the board's earth return comes from, what stops it, or the refusal.
#![tactic(auto)]

ghost use Rattle.std.specs.Prelude.{◌≡◌, ◌≤◌, IsTrue, length};
ghost use Rattle.std.specs.Io.KnownBytes.{Appends};
ghost use Rattle.decimal.specs.Wrote.{Wrote};
ghost use Rattle.paper.specs.Return.{earth_said};
ghost use Rattle.lines.specs.Earth.{earth_text, earth_most};
ghost use Rattle.earth.specs.Limits.{label_most};

use decimal::Pen;
use std::io::Write;

// What is read of the label at most: all of a label, and a byte more, so that a longer one is refused and not cut to a label.
const LABEL: usize = 13;

// Room for every line.
const PAGE: usize = 50;

// What may not change: its clause says that LABEL is the most that is read. An array of main's would say nothing of it.
fn label_space() -> [u8; LABEL]
    ensures { label_most ≡ length result }
{
    [0; LABEL]
}

// All that the program does between reading and writing.
fn answer(out: &mut [u8], net: &[u8], label: &[u8]) -> usize
    requires { earth_most ≤ length out.old }
    ensures { Wrote 0 (earth_text (earth_said net.now label.now)) out.old out.new result }
{
    let given = return_path::earth(net, label);
    let mut pen = Pen { out, at: 0 };
    lines::earthed::put_earth(&mut pen, given);
    pen.at
}

// Where it answers true, the answer stands on standard output behind what was there. What `short` does alike is `console::print`; over a closure for the answer it would be no plainer. What may not change: its clause speaks of `true`, so no Result.
fn show<O: Write, E: Write>(stdout: &mut O, stderr: &mut E, net: &[u8], label: &[u8]) -> bool
    ensures { IsTrue result → Appends (O.contents stdout.old) (O.contents stdout.new) (earth_text (earth_said net.now label.now)) }
{
    let mut out = [0u8; PAGE];
    let end = answer(&mut out, net, label);
    console::print(
        stdout,
        stderr,
        &out[..end],
        b"earth: the answer could not be written to standard output\n",
    )
}

fn main(rt: HostRuntime) {
    let mut net = console::file_space();
    let n = console::network(&rt, &mut net);
    let mut label = label_space();
    let m = console::read_full(&mut rt.stdin(), &mut label);
    show(&mut rt.stdout(), &mut rt.stderr(), &net[..n], &label[..m]);
}
