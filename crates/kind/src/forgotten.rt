// A transformer entered without its impedance (21): the amps behind it would come out far too high. "Kinds 3, 4 and 5" is said of the numbers, and no plainer by names. Looked at without a branch.
ghost use Rattle.std.specs.Prelude.{◌≡◌};
ghost use Rattle.paper.specs.Refusal.{z1_forgotten};

use paper::{Board, Ohms};

pub fn z1_forgotten(b: Board) -> bool
    ensures { result ≡ z1_forgotten b }
{
    (3 <= b.kind) & (b.kind <= 5) & (b.z1 == Ohms::ZERO)
}
