// The three functions of the archive for programs in C and Rust: those of `ranjupeli`, under the same names and with the same clauses. A slice comes from C as a pointer and a length.
#![tactic(auto)]

ghost use Rattle.std.specs.Prelude.{◌≡◌, length};
ghost use Rattle.paper.specs.Answer.{verdict, written};
ghost use Rattle.paper.specs.Write.{write_verdict, write_leaves};
ghost use Rattle.paper.specs.Return.{earth_said};
ghost use Rattle.ranjupeli.specs.Reply.{reply_of, write_reply_of, earth_reply_of};

use paper::Board;
use ranjupeli::{EarthReply, Reply, WriteReply};

// Any network, any fault, any buffer: nothing is asked of the caller but that what it lends is there.
#[unsafe(no_mangle)]
pub extern "C" fn ranjupeli_solve(net: &[u8], flt: &[u8], buffer: &mut [i64]) -> Reply
    ensures value { result ≡ reply_of (verdict net.now flt.now (length buffer.old)) }
    ensures buffer_after { buffer.new ≡ written net.now flt.now buffer.old }
{
    ranjupeli::ranjupeli_solve(net, flt, buffer)
}

// Any numbers, any boards, any buffer: nothing is asked of the caller but that what it lends is there.
#[unsafe(no_mangle)]
pub extern "C" fn ranjupeli_write(
    volts: u16,
    unit: u16,
    boards: &[Board],
    out: &mut [u8],
) -> WriteReply
    ensures value { result ≡ write_reply_of (write_verdict volts unit boards.now (length out.old)) }
    ensures out_after { out.new ≡ write_leaves volts unit boards.now out.old }
{
    ranjupeli::ranjupeli_write(volts, unit, boards, out)
}

// Any network, any label: nothing is asked of the caller but that what it lends is there.
#[unsafe(no_mangle)]
pub extern "C" fn ranjupeli_earth(net: &[u8], label: &[u8]) -> EarthReply
    ensures { result ≡ earth_reply_of (earth_said net.now label.now) }
{
    ranjupeli::ranjupeli_earth(net, label)
}
