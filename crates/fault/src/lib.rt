// The four faults at a board: D, the currents over it, and what W0 is lifted by; in the modules their kinds, the impedances that the currents flow through, what is different without earth return,
// and the voltages that they leave at a board.
#![tactic(auto)]

mod impedances;
pub mod kinds;
mod unearthed;
pub mod volts;

ghost use Rattle.std.specs.Prelude.{◌≡◌};
ghost use Rattle.turn.specs.Number.{conj_n};
ghost use Rattle.turn.specs.Bounds.{Addable, Factors};
ghost use Rattle.paper.specs.Bounds.{AtMost, EachSeq};
ghost use Rattle.paper.specs.Fault.{seq, currents};
ghost use Rattle.fault.specs.Short.{shorted_of};

use crate::impedances::Impedances;
use crate::kinds::FaultKind;
use crate::unearthed::{kind_at, lift, zf_at};
use crate::volts::OverD;
use paper::{Ohms, Seq};
use phasor::product::square;
use phasor::sum::conj;
use turn::Num;

// D; I1, I2 and I0 over it; and what W0 is lifted by at the faulted board and the boards joined to it.
#[derive(Clone, Copy)]
pub struct Shorted {
    pub d: i64,
    pub i: Seq,
    pub lift: Num,
}

// The three sequences. By a function: no plainer written out at each of its calls.
pub(crate) fn seq(s1: Num, s2: Num, s0: Num) -> Seq
    ensures { result ≡ seq s1 s2 s0 }
{
    Seq { s1, s2, s0 }
}

// The currents over D: what stands above the line times the divisor's conjugate.
fn currents(n: Num, a: Seq) -> Seq
    requires n_addable { Addable n }
    requires a_factors { EachSeq (λ x. Factors x (conj_n n)) a }
    ensures { result ≡ currents (record { divisor = n; above = a }) }
{
    let c = conj(n);
    seq(a.s1 * c, a.s2 * c, a.s0 * c)
}

// The fault of a kind at a board with an earth return or without: D is the square of the divisor's absolute value. `kind` stays a number: the clause speaks of any, over 4 too. z1 to zf stay: `fault_at` has them of a node and of a fault, and a struct would be built for this call alone.
pub fn short(z1: Ohms, z2: Ohms, z0: Ohms, zf: Ohms, kind: u8, earthed: bool) -> Shorted
    requires z1_at_most { AtMost 4095 z1 }
    requires z2_at_most { AtMost 4095 z2 }
    requires z0_at_most { AtMost 4095 z0 }
    requires zf_at_most { AtMost 1365 zf }
    ensures { result ≡ shorted_of z1 z2 z0 zf kind earthed }
{
    let named = FaultKind::from(kind);
    let flowing = kind_at(named, earthed);
    let f = zf_at(zf, named, earthed);
    let z = Impedances { z1, z2, z0, zf: f };
    let n = z.divisor(flowing);
    let i = currents(n, z.above(flowing));
    let d = square(n);
    let over = OverD { d, i };
    let lift = lift(over, z, named, earthed);
    Shorted { d, i, lift }
}
