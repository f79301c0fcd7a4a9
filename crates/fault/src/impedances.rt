// The impedances that a fault's currents flow through, and what comes of them where there is an earth return: what each kind's currents are divided by, and what stands above the line.
ghost use Rattle.std.specs.Prelude.{false, ◌≡◌};
ghost use Rattle.paper.specs.Bounds.{AtMost};
ghost use Rattle.paper.specs.Fault.{num_of, G, Δ, short_of};
ghost use Rattle.fault.specs.Kinds.{number_of};

use crate::kinds::FaultKind;
use crate::seq;
use paper::{Ohms, Seq};
use turn::Num;

// The faulted board's sums and the fault's own impedance, within the paper's ranges.
#[derive(Clone, Copy)]
pub(crate) struct Impedances {
    pub z1: Ohms,
    pub z2: Ohms,
    pub z0: Ohms,
    pub zf: Ohms,
    ghost z1_at_most: { AtMost 4095 z1 },
    ghost z2_at_most: { AtMost 4095 z2 },
    ghost z0_at_most: { AtMost 4095 z0 },
    ghost zf_at_most: { AtMost 1365 zf },
}

impl Impedances {
    // G = Z0 + 3Zf.
    pub(crate) fn earthed(self) -> Num
        ensures { result ≡ G (num_of self.z1) (num_of self.z2) (num_of self.z0) (num_of self.zf) }
    {
        let f = Num::from(self.zf);
        Num::from(self.z0) + (f + f + f)
    }

    // Δ = Z1.Z2 + Z1.G + Z2.G.
    fn delta(self) -> Num
        ensures { result ≡ Δ (num_of self.z1) (num_of self.z2) (num_of self.z0) (num_of self.zf) }
    {
        let a = Num::from(self.z1);
        let b = Num::from(self.z2);
        let g = self.earthed();
        a * b + a * g + b * g
    }

    // What the currents of a fault are divided by: one, where none flow.
    pub(crate) fn divisor(self, kind: FaultKind) -> Num
        ensures { result ≡ (short_of (num_of self.z1) (num_of self.z2) (num_of self.z0) (num_of self.zf) false (number_of kind)).divisor }
    {
        let a = Num::from(self.z1);
        let b = Num::from(self.z2);
        let f = Num::from(self.zf);
        match kind {
            FaultKind::ThreePhases => a + f,
            FaultKind::OneToEarth => a + b + self.earthed(),
            FaultKind::TwoPhases => a + b + f,
            FaultKind::TwoToEarth => self.delta(),
            FaultKind::Nothing => Num::ONE,
        }
    }

    // I1, I2 and I0 above the line.
    pub(crate) fn above(self, kind: FaultKind) -> Seq
        ensures { result ≡ (short_of (num_of self.z1) (num_of self.z2) (num_of self.z0) (num_of self.zf) false (number_of kind)).above }
    {
        let one = Num::ONE;
        let nil = Num::whole(0);
        match kind {
            FaultKind::ThreePhases => seq(one, nil, nil),
            FaultKind::OneToEarth => seq(one, one, one),
            FaultKind::TwoPhases => seq(one, -one, nil),
            FaultKind::TwoToEarth => {
                let b = Num::from(self.z2);
                let g = self.earthed();
                seq(b + g, -g, -b)
            },
            FaultKind::Nothing => seq(nil, nil, nil),
        }
    }
}
