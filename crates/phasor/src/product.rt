// The square of an absolute value: what multiplies coordinates and is no operator.
ghost use Rattle.std.specs.Prelude.{◌≡◌};
ghost use Rattle.turn.specs.Number.{square_n};
ghost use Rattle.turn.specs.Bounds.{Squarable};

use turn::Num;

// The square of the absolute value of R + jX.
pub fn square(a: Num) -> i64
    requires { Squarable a }
    ensures { result ≡ square_n a }
{
    a.x0 * a.x0 + a.x3 * a.x3
}
