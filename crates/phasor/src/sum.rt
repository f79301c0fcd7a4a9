// The conjugate of a number: what adds coordinates and is no operator.
ghost use Rattle.std.specs.Prelude.{◌≡◌};
ghost use Rattle.turn.specs.Number.{conj_n};
ghost use Rattle.turn.specs.Bounds.{Addable};

use turn::Num;

// t becomes t¹¹: the angle is turned back.
pub fn conj(a: Num) -> Num
    requires { Addable a }
    ensures { result ≡ conj_n a }
{
    Num {
        x0: a.x0 + a.x2,
        x1: a.x1,
        x2: -a.x2,
        x3: -(a.x1 + a.x3),
    }
}
