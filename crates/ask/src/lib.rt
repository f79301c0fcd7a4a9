// A fault's bytes, asked of an accepted network in which its label was looked for: accepted with its board's place, or refused by the first rule of 12 to 19 that is broken.
#![tactic(auto)]

pub mod question;
mod rules;

ghost use Rattle.std.specs.Prelude.{◌≡◌, ◌≤◌};
ghost use Rattle.ask.specs.Ask.{ask_of};

use crate::question::{Question, at_board, read_fault};
use file::field::FAULT;
use paper::{Lent, Refusal, Rule};

pub fn ask(flt: &[u8], k: u16, n: usize, room: usize) -> Result<Question, Refusal>
    requires { n ≤ 256 }
    ensures { result ≡ ask_of flt.now k n room }
{
    let fault = read_fault(flt)?;
    // 0 as the paper's `place_of` has it: 14 is `eqb k 0` in `ask_of` (specs/Ask).
    if k == 0 {
        return Err(Refusal::at_the_front(Rule::UnknownBoard, Lent::FaultBytes, FAULT));
    }
    at_board(fault, k, n, room)
}
