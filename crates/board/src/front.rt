// The fault at its board, and its numbers in the buffer.
ghost use Rattle.std.specs.Prelude.{◌≡◌, length};
ghost use Rattle.paper.specs.Bounds.{AtMost};
ghost use Rattle.board.specs.Faulted.{FaultSmall, faulted_from, top_of};

use crate::shown;
use fault::short;
use node::Node;
use paper::{Fault, Seq};
use turn::Num;

// The fault at its board: the currents over D, what W0 is lifted by in the board's part, D, the head of that part, the board's turn, the odd phase, and whether the part has an earth return.
// No ghost field says FaultSmall: `fault_at` answers for any fault, and would have to ask more.
#[derive(Clone, Copy)]
pub struct Faulted {
    pub i: Seq,
    pub lift: Num,
    pub d: i64,
    pub head: u16,
    pub turn: u16,
    pub phase: u8,
    pub earthed: bool,
}

// The fault at a board.
pub fn fault_at(at: Node, f: Fault) -> Faulted
    requires { (AtMost 4095 at.z1) × (AtMost 4095 at.z2) × (AtMost 4095 at.z0) × (AtMost 1365 f.zf) }
    ensures { result ≡ faulted_from at f }
{
    let earthed = at.start != 0;
    let s = short(at.z1, at.z2, at.z0, f.zf, f.kind, earthed);
    Faulted {
        i: s.i,
        lift: s.lift,
        d: s.d,
        head: at.head,
        turn: at.turn,
        phase: f.phase,
        earthed,
    }
}

// D and the fault's currents, over the first thirteen places. They are shown at the faulted board itself.
pub fn top(out: &mut [i64], f: Faulted)
    requires { (length out.old ≡ 13) × (FaultSmall f) }
    ensures { out.new ≡ top_of f }
{
    out[0] = f.d;
    shown(&mut out[1..13], f, f.turn, f.i);
}
