// The rules that look at a fault alone and at more than one of its numbers: 16 and 17.
ghost use Rattle.std.specs.Prelude.{◌≡◌};
ghost use Rattle.paper.specs.Kind.{part_over};
ghost use Rattle.paper.specs.Refusal.{phase_wrong};

use kind::impedance::over;
use paper::Fault;

// The most that a part of Zf may be.
const MOST: u16 = 1365;

// 16. What may not change: `phase_wrong` (paper) says it of the numbers, of kinds over 3 too.
#[tactic(auto, unfolding(paper::specs::Refusal::phase_wrong))]
pub(crate) fn phase_wrong(f: Fault) -> bool
    ensures { result ≡ phase_wrong f }
{
    (2 < f.phase) | ((f.kind == 0) & (f.phase != 0))
}

// 17
pub(crate) fn zf_over(f: Fault) -> bool
    ensures { result ≡ part_over 1365 f.zf }
{
    over(MOST, f.zf)
}
