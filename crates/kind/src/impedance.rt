// The test of an impedance's size. Both parts are looked at, without a branch.
ghost use Rattle.std.specs.Prelude.{◌≡◌};
ghost use Rattle.paper.specs.Kind.{part_over};

use paper::Ohms;

pub fn over(most: u16, z: Ohms) -> bool
    ensures { result ≡ part_over most z }
{
    (most < z.r) | (most < z.x)
}
