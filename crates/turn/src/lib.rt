// The number: x0 + x1 t + x2 t² + x3 t³ with whole coordinates, t a turn of 30 degrees forward.
// Every impedance, current and voltage above this crate is one; specs/ says what each operation means. The operators are in `arithmetic`; conjugate, square and turns
// are in `phasor`, so that a crate that only names numbers stands on none of them.
#![tactic(auto)]

mod arithmetic;

ghost use Rattle.std.specs.Prelude.{◌≡◌};
ghost use Rattle.turn.specs.Number.{whole_n, complex_n, one_n, j_n, a_n, a2_n};

#[derive(Clone, Copy)]
pub struct Num {
    pub x0: i64,
    pub x1: i64,
    pub x2: i64,
    pub x3: i64,
}

impl Num {
    pub const ONE: Num = Num {
        x0: 1,
        x1: 0,
        x2: 0,
        x3: 0,
    };

    pub const J: Num = Num {
        x0: 0,
        x1: 0,
        x2: 0,
        x3: 1,
    };

    pub const A: Num = Num {
        x0: -1,
        x1: 0,
        x2: 1,
        x3: 0,
    };

    pub const A2: Num = Num {
        x0: 0,
        x1: 0,
        x2: -1,
        x3: 0,
    };

    pub fn one() -> Num
        ensures { result ≡ one_n }
    {
        Num::ONE
    }

    pub fn j() -> Num
        ensures { result ≡ j_n }
    {
        Num::J
    }

    pub fn a() -> Num
        ensures { result ≡ a_n }
    {
        Num::A
    }

    pub fn a2() -> Num
        ensures { result ≡ a2_n }
    {
        Num::A2
    }

    pub fn whole(n: i64) -> Num
        ensures { result ≡ whole_n n }
    {
        Num {
            x0: n,
            x1: 0,
            x2: 0,
            x3: 0,
        }
    }

    // R + jX
    pub fn complex(r: i64, x: i64) -> Num
        ensures { result ≡ complex_n r x }
    {
        Num {
            x0: r,
            x1: 0,
            x2: 0,
            x3: x,
        }
    }
}
