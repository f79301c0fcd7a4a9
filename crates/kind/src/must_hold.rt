// The kind table, its column "Must hold": the test of a board's impedances (10).
ghost use Rattle.std.specs.Prelude.{◌≡◌};
ghost use Rattle.paper.specs.Kind.{kind_of, all_hold};
ghost use Rattle.paper.specs.Refusal.{impedance_wrong};

use crate::Kind;
use crate::impedance::over;
use paper::{Board, Ohms};

// The most that a part of an impedance may be.
const MOST: u16 = 4095;

fn rules_hold(b: Board) -> bool
    ensures { result ≡ all_hold (kind_of b.kind).rules b }
{
    let live = (b.z1 != Ohms::ZERO) & (b.z2 != Ohms::ZERO);
    let same = b.z1 == b.z2;
    let no_z0 = b.z0 == Ohms::ZERO;
    let no_zn = b.zn == Ohms::ZERO;
    match Kind::try_from(b.kind) {
        Ok(Kind::Source) => live,
        Ok(Kind::FloatingSource) => live & no_z0 & no_zn,
        Ok(Kind::Cable) => same & no_zn,
        Ok(Kind::StarStar) => same,
        Ok(Kind::DeltaStar) => same,
        Ok(Kind::Blocking) => same & no_z0 & no_zn,
        Err(_) => true,
    }
}

pub fn impedance_wrong(b: Board) -> bool
    ensures { result ≡ impedance_wrong b }
{
    over(MOST, b.z1) | over(MOST, b.z2) | over(MOST, b.z0) | over(MOST, b.zn) | !rules_hold(b)
}
