// Sums, opposites, differences and products of numbers, by the operators of whole numbers.
ghost use Rattle.std.specs.Prelude.{◌≡◌};
ghost use Rattle.turn.specs.Number.{◌+N◌, neg_n, ◌-N◌, ◌*N◌};
ghost use Rattle.turn.specs.Bounds.{Addable, Negatable, Factors};

use crate::Num;
use std::ops::{Add, Mul, Neg, Sub};

impl Add for Num {
    type Output = Num;

    ghost can_add = { λ a b. Addable a × Addable b };

    ghost add_gives = { λ a b r. r ≡ a +N b };

    fn add(self, b: Num) -> Num {
        Num {
            x0: self.x0 + b.x0,
            x1: self.x1 + b.x1,
            x2: self.x2 + b.x2,
            x3: self.x3 + b.x3,
        }
    }
}

impl Neg for Num {
    type Output = Num;

    ghost can_neg = { Negatable };

    ghost neg_gives = { λ a r. r ≡ neg_n a };

    fn neg(self) -> Num {
        Num {
            x0: -self.x0,
            x1: -self.x1,
            x2: -self.x2,
            x3: -self.x3,
        }
    }
}

impl Sub for Num {
    type Output = Num;

    ghost can_sub = { λ a b. Addable a × Addable b };

    ghost sub_gives = { λ a b r. r ≡ a -N b };

    fn sub(self, b: Num) -> Num {
        self + -b
    }
}

impl Mul for Num {
    type Output = Num;

    ghost can_mul = { Factors };

    ghost mul_gives = { λ a b r. r ≡ a *N b };

    fn mul(self, b: Num) -> Num {
        let Num {
            x0: a0,
            x1: a1,
            x2: a2,
            x3: a3,
        } = self;
        let Num {
            x0: b0,
            x1: b1,
            x2: b2,
            x3: b3,
        } = b;
        // What stands at t⁴ = t² - 1, t⁵ = t³ - t and t⁶ = -1 is brought down to the four coordinates.
        let c4 = a1 * b3 + a2 * b2 + a3 * b1;
        let c5 = a2 * b3 + a3 * b2;
        let c6 = a3 * b3;
        Num {
            x0: a0 * b0 - c4 - c6,
            x1: a0 * b1 + a1 * b0 - c5,
            x2: a0 * b2 + a1 * b1 + a2 * b0 + c4,
            x3: a0 * b3 + a1 * b2 + a2 * b1 + a3 * b0 + c5,
        }
    }
}
