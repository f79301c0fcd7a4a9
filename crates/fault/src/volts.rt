// The voltages that a fault leaves at a board.
ghost use Rattle.std.specs.Prelude.{◌≡◌};
ghost use Rattle.lemmas.specs.Small.{Small};
ghost use Rattle.turn.specs.Number.{whole_n, ◌-N◌, ◌*N◌};
ghost use Rattle.paper.specs.Bounds.{AtMost, Plane, EachSeq, most_d, most_i, most_lift};
ghost use Rattle.paper.specs.Fault.{num_of};
ghost use Rattle.paper.specs.Phase.{voltage_of};

use crate::seq;
use paper::{Ohms, Seq};
use turn::Num;

// The currents of a fault and the D that they stand over, no larger than impedances in their ranges make them.
#[derive(Clone, Copy)]
pub(crate) struct OverD {
    pub d: i64,
    pub i: Seq,
    ghost d_small: { Small most_d d },
    ghost i_plane: { EachSeq (Plane most_i) i },
}

// An impedance times a sequence current.
fn drop(z: Ohms, i: Num) -> Num
    requires z_at_most { AtMost 4095 z }
    requires i_plane { Plane most_i i }
    ensures { result ≡ num_of z *N i }
{
    Num::from(z) * i
}

impl OverD {
    // W1, over D, of a board that shares za with the faulted one.
    pub(crate) fn first(self, za: Ohms) -> Num
        requires { AtMost 4095 za }
        ensures { result ≡ whole_n self.d -N num_of za *N self.i.s1 }
    {
        Num::whole(self.d) - drop(za, self.i.s1)
    }
}

// The referred voltages, over D, of a board that shares za, zb and zc with the faulted one, and whose W0 is lifted by `up`. No plainer with an OverD for d and i: `board` has the two in a Faulted.
pub fn voltage(d: i64, i: Seq, za: Ohms, zb: Ohms, zc: Ohms, up: Num) -> Seq
    requires d_small { Small most_d d }
    requires i_plane { EachSeq (Plane most_i) i }
    requires za_at_most { AtMost 4095 za }
    requires zb_at_most { AtMost 4095 zb }
    requires zc_at_most { AtMost 4095 zc }
    requires up_plane { Plane most_lift up }
    ensures { result ≡ voltage_of d i za zb zc up }
{
    let over = OverD { d, i };
    seq(over.first(za), -drop(zb, i.s2), up - drop(zc, i.s0))
}
