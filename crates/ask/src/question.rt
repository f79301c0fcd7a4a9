// What asking for a fault gives, and the rules of a fault that need no boards: 12 and 13 of its bytes, 15 to 19 at its board.
ghost use Rattle.std.specs.Prelude.{◌≡◌, ◌≤◌};
ghost use Rattle.paper.specs.File.{fault_of};
ghost use Rattle.paper.specs.Rows.{first};
ghost use Rattle.paper.specs.Rule.{or_refused};
ghost use Rattle.ask.specs.Steps.{unread_rows, asked_at};

use crate::rules::{phase_wrong, zf_over};
use file::bytes::fault_of;
use file::field::{FAULT, FT, u16_at};
use paper::{Fault, Lent, Refusal, Rule};

// An accepted fault, and its board's place.
#[derive(Clone, Copy)]
pub struct Question {
    pub fault: Fault,
    pub k: u16,
}

// 12 and 13: bytes that are not read are shown whole, all that there are for 12, the fault's 20 for 13.
#[tactic(auto, unfolding(crate::specs::Steps::unread_rows, paper::specs::Rows::first, paper::specs::Rule::or_refused))]
pub(crate) fn read_fault(flt: &[u8]) -> Result<Fault, Refusal>
    ensures { result ≡ or_refused (first (unread_rows flt.now)) (fault_of flt.now) }
{
    if flt.len() != FAULT {
        return Err(Refusal::at_the_front(Rule::FaultLength, Lent::FaultBytes, flt.len()));
    }
    if u16_at(flt, 0) != FT {
        return Err(Refusal::at_the_front(Rule::FaultMark, Lent::FaultBytes, FAULT));
    }
    Ok(fault_of(flt))
}

// 15 to 19, of a fault at board k of n.
#[tactic(auto, unfolding(crate::specs::Steps::asked_at, crate::specs::Steps::board_rows, paper::specs::Rows::first, paper::specs::Rule::or_refused))]
pub(crate) fn at_board(fault: Fault, k: u16, n: usize, room: usize) -> Result<Question, Refusal>
    requires { n ≤ 256 }
    ensures { result ≡ asked_at fault k n room }
{
    // by the number: 15 is of those that are no kind
    if 3 < fault.kind {
        return Err(Refusal::at_the_front(Rule::FaultKind, Lent::FaultBytes, FAULT));
    }
    if phase_wrong(fault) {
        return Err(Refusal::at_the_front(Rule::FaultPhase, Lent::FaultBytes, FAULT));
    }
    if zf_over(fault) {
        return Err(Refusal::at_the_front(Rule::FaultImpedance, Lent::FaultBytes, FAULT));
    }
    if room < 13 + 24 * n {
        return Err(Refusal::at_the_front(Rule::ShortBuffer, Lent::FaultBytes, 0));
    }
    Ok(Question { fault, k })
}
