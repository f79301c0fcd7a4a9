// A fault at a board without earth return: current that has no way back through earth does not flow, and the healthy phases rise instead. A kind and whether there is a return stay two parameters, as `shorted_of` has them: a type of both would be made for these calls alone.
ghost use Rattle.std.specs.Prelude.{not, cond, ◌&&◌, [], ◌∷◌, ◌≡◌, eqb, get_or};
ghost use Rattle.turn.specs.Number.{whole_n, ◌-N◌, ◌*N◌};
ghost use Rattle.paper.specs.Kind.{ohms};
ghost use Rattle.paper.specs.Fault.{num_of, lift_of};
ghost use Rattle.paper.specs.Phase.{only_if};
ghost use Rattle.fault.specs.Kinds.{number_of};

use crate::impedances::Impedances;
use crate::kinds::FaultKind;
use crate::volts::OverD;
use paper::Ohms;
use turn::Num;

// The kind whose currents flow, if any do. Without earth return one phase to earth draws none, and two phases to earth draw what two phases do.
pub(crate) fn kind_at(kind: FaultKind, earthed: bool) -> FaultKind
    ensures { number_of result ≡ cond (not earthed) (get_or (0 ∷ 4 ∷ 2 ∷ 2 ∷ []) (number_of kind) (number_of kind)) (number_of kind) }
{
    match kind {
        FaultKind::OneToEarth if !earthed => FaultKind::Nothing,
        FaultKind::TwoToEarth if !earthed => FaultKind::TwoPhases,
        _ => kind,
    }
}

// The fault impedance that they flow through. Two phases to earth touch each other: without earth return Zf, which lies on the way to earth, carries nothing.
pub(crate) fn zf_at(zf: Ohms, kind: FaultKind, earthed: bool) -> Ohms
    ensures { result ≡ cond (not earthed && eqb (number_of kind) 3) (ohms 0 0) zf }
{
    match kind {
        FaultKind::TwoToEarth if !earthed => Ohms::ZERO,
        _ => zf,
    }
}

// What W0 is lifted by at the faulted board and the boards joined to it. A fault to earth holds its own phases at earth; without earth return nothing holds the others back, so all three move with them.
pub(crate) fn lift(over: OverD, z: Impedances, kind: FaultKind, earthed: bool) -> Num
    ensures { result ≡ only_if (not earthed) (lift_of (number_of kind) (whole_n over.d -N num_of z.z1 *N over.i.s1)) }
{
    match kind {
        FaultKind::OneToEarth if !earthed => -over.first(z.z1),
        FaultKind::TwoToEarth if !earthed => over.first(z.z1),
        _ => Num::whole(0),
    }
}
