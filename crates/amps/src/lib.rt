// The amps of a fault, whole.
#![tactic(auto)]

ghost use Rattle.std.specs.Prelude.{not, ◌≡◌, ◌*◌, ◌≤◌, nat_abs};
ghost use Rattle.root.specs.Root.{Root};
ghost use Rattle.paper.specs.Amps.{factor};
ghost use Rattle.fault.specs.Kinds.{number_of};
ghost use Rattle.amps.specs.Positive.{Positive};

use fault::kinds::FaultKind;
use paper::Ohms;

// |I|² times D, of the current that the amps are of. Current to earth flows only where there is an earth return. A kind and whether there is one stay two, as in `factor` (paper).
fn factor(z2: Ohms, kind: FaultKind, earthed: bool) -> u64
    ensures { result ≡ factor (not earthed) z2 (number_of kind) }
{
    match kind {
        FaultKind::ThreePhases => 1,
        FaultKind::OneToEarth if earthed => 9,
        FaultKind::TwoPhases => 3,
        FaultKind::TwoToEarth if earthed => {
            let r = z2.r as u64;
            let x = z2.x as u64;
            9 * (r * r + x * x)
        },
        _ => 0,
    }
}

// The greatest n not above |I| · volts · 10^6 / unit. Of any kind's number, as `fault::short`.
pub fn amps(volts: u16, unit: u16, z2: Ohms, d: i64, kind: u8, earthed: bool) -> u64
    requires volts_at_most { volts ≤ 1000 }
    requires unit_at_least { 1 ≤ unit }
    requires d_positive { Positive d }
    ensures { Root (factor (not earthed) z2 kind * ((volts * 1000000) * (volts * 1000000))) (nat_abs d * (unit * unit)) result }
{
    let v = volts as u64 * 1000000;
    let u = unit as u64;
    let n = d as u64;
    root::root(
        root::product(factor(z2, FaultKind::from(kind), earthed), v * v),
        root::product(n, u * u),
    )
}
