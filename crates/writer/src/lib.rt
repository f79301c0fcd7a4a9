// The network file, written: volts, unit and decoded boards to the bytes that the reader reads, or the refusal that the reader would give.
#![tactic(auto)]

mod lay;
mod page;

ghost use Rattle.std.specs.Prelude.{◌≡◌, length};
ghost use Rattle.paper.specs.Write.{write_verdict, write_leaves};

use crate::lay::{put_boards, typed_boards};
use crate::page::write_page;
use paper::{Board, Written};

// The entry point, with what C lends (`ranjupeli_write`), so volts and unit are two words. Any numbers, any boards, any buffer; nothing is written until all is judged.
pub fn write(volts: u16, unit: u16, boards: &[Board], out: &mut [u8]) -> Written
    ensures value { result ≡ write_verdict volts unit boards.now (length out.old) }
    ensures out_after { out.new ≡ write_leaves volts unit boards.now out.old }
{
    let n = boards.len();
    typed_boards(boards);
    // One page of room for the longest file, 8 + 44 * 256, lent to both: the boards lie on it straight from the caller's, and no table of them is made.
    let mut file = [0; 11272];
    put_boards(&mut file, boards);
    write_page(volts, unit, n, &mut file, out)
}
