// The head's own test (3).
ghost use Rattle.std.specs.Prelude.{not, ◌≡◌};
ghost use Rattle.paper.specs.Refusal.{head_ranges};

use crate::field::in_range;
use paper::Head;

pub fn head_wrong(h: Head) -> bool
    ensures { result ≡ not (head_ranges h) }
{
    !(in_range(1, 1000, h.volts) & in_range(10, 1000, h.unit) & in_range(1, 256, h.boards))
}
