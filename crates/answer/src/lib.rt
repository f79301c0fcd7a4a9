// The answer in the caller's buffer: D and the fault's currents, then the 24 numbers of each board in one pass in file order; and the amps.
#![tactic(auto)]

mod pass;

ghost use Rattle.std.specs.Prelude.{◌≡◌, ◌≤◌, length};
ghost use Rattle.lemmas.specs.Over.{over};
ghost use Rattle.paper.specs.Phase.{Asked};
ghost use Rattle.paper.specs.Refusal.{answer_size};
ghost use Rattle.paper.specs.Amps.{amps};
ghost use Rattle.paper.specs.Answer.{numbers};
ghost use Rattle.answer.specs.Posed.{Posed};

use crate::pass::boards;
use amps::amps;
use board::front::{fault_at, top};
use chain::chain;
use node::Node;
use paper::{Fault, Head};

// Of whatever question this is the head, the nodes, the fault and the faulted board's place: its amps, and its numbers from the front of the buffer.
// The nodes are used up: what is left in them is nobody's.
pub fn answer(head: Head, nodes: &mut [Node; 256], fault: Fault, k: usize, out: &mut [i64]) -> u64
    requires { (q : Asked) × Posed q head nodes.old fault k × (answer_size head.boards ≤ length out.old) }
    ensures value { (q : Asked) → Posed q head nodes.old fault k → result ≡ amps q }
    ensures out_after { (q : Asked) → Posed q head nodes.old fault k → out.new ≡ over 0 (numbers q) out.old }
{
    let n = usize::from(head.boards);
    let at = nodes[k - 1];
    let f = fault_at(at, fault);
    let on = chain(nodes, k);
    top(&mut out[0..13], f);
    boards(nodes, n, &on, f, out);
    amps(head.volts, head.unit, at.z2, f.d, fault.kind, f.earthed)
}
