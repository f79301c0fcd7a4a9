// The printed answer, written into a lent buffer.
#![tactic(auto)]

ghost use Rattle.std.specs.Prelude.{◌≡◌, ◌≤◌, length};
ghost use Rattle.decimal.specs.Wrote.{Wrote};
ghost use Rattle.decimal.specs.Writing.{Fits, Writes};
ghost use Rattle.paper.specs.File.{fault_of};
ghost use Rattle.paper.specs.Answer.{verdict};
ghost use Rattle.text.specs.Text.{room, printed, text_most};
ghost use Rattle.text.specs.Lying.{currents_lying, top_lying, Answered};

use decimal::Pen;
use file::bytes::fault_of;
use lines::boards::put_boards;
use lines::{put_fault, put_phases, put_refusal};
use paper::Answer;

// D and the fault currents.
fn put_currents(pen: &mut Pen<'_>, zs: &[i64])
    requires in_bounds { 13 ≤ length zs.now }
    requires room { Fits (currents_lying zs.now) pen.old }
    ensures { Writes (currents_lying zs.now) pen.old pen.new }
{
    pen.row(b'D', &zs[..1]);
    put_phases(pen, b"", b"I ", &zs[1..]);
}

// The lines above the boards.
fn put_top(pen: &mut Pen<'_>, flt: &[u8], amps: u64, zs: &[i64])
    requires flt_len { length flt.now ≡ 20 }
    requires in_bounds { 13 ≤ length zs.now }
    requires room { Fits (top_lying (fault_of flt.now) amps zs.now) pen.old }
    ensures { Writes (top_lying (fault_of flt.now) amps zs.now) pen.old pen.new }
{
    let f = fault_of(flt);
    put_fault(pen, f.label, f.kind, f.phase, amps);
    put_currents(pen, zs);
}

// The whole text, of a call that had room for 256 boards.
pub fn print(out: &mut [u8], net: &[u8], flt: &[u8], answer: Answer, zs: &[i64]) -> usize
    requires answer_value { answer ≡ verdict net.now flt.now room }
    requires answered { Answered net.now flt.now zs.now }
    requires text_most_in_bounds { text_most ≤ length out.old }
    ensures { Wrote 0 (printed net.now flt.now) out.old out.new result }
{
    let mut pen = Pen { out, at: 0 };
    let number = answer.number;
    if number != 0 {
        put_refusal(&mut pen, number, answer.place);
        return pen.at;
    }
    put_top(&mut pen, flt, answer.amps, zs);
    put_boards(&mut pen, net, answer.n as usize, zs);
    pen.at
}
