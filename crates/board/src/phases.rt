// What the three phases of a board show, with d its turn against the faulted board's: phase (p + i) mod 3 shows t^(8p) (X0 + t^(8i - d) X1 + t^(4i + d) X2).
// A turn is quarters back and thirds forward. Quarters make R + jX of R + jX; thirds in d say which phase shows what, and nothing is turned by them.
ghost use Rattle.std.specs.Prelude.{cond, ◌≡◌, ◌+◌, ◌*◌, ◌%◌, ◌≤◌};
ghost use Rattle.turn.specs.Number.{◌+N◌, turn_n};
ghost use Rattle.turn.specs.Bounds.{Within, Addable};
ghost use Rattle.paper.specs.Bounds.{Plane, EachSeq, most_w};
ghost use Rattle.paper.specs.Phase.{phases};
ghost use Rattle.paper.specs.Answer.{flat};
ghost use Rattle.board.specs.Put.{shown_at, sum_of, laid};

use crate::put::phase;
use paper::Seq;
use phasor::turns::turn;
use turn::Num;

// A phase of three: a, b or c. A number, since phases are counted on, modulo three.
#[derive(Clone, Copy)]
pub(crate) struct Phase {
    pub n: usize,
    ghost of_three: { n ≤ 2 },
}

impl Phase {
    // The phase behind it.
    fn next(self) -> Phase
        ensures { result.n ≡ (self.n + 1) % 3 }
    {
        Phase {
            n: if self.n == 2 { 0 } else { self.n + 1 },
        }
    }
}

// With n a literal the compiler works out both and takes one, without a jump: the turns of a network's boards follow no pattern, and a jump would be guessed wrong.
fn turn_if(on: bool, a: Num, n: usize) -> Num
    requires { Addable a }
    ensures { result ≡ cond on (turn_n n a) a }
{
    if on { turn(a, n) } else { a }
}

// n quarters of a turn back. R + jX is taken apart and put together: so the compiler knows that the other two coordinates are 0, and leaves out what is done with them.
fn quarters(a: Num, n: usize) -> Num
    requires { Plane most_w a }
    ensures { result ≡ turn_n (9 * n) a }
{
    let z = Num::complex(a.x0, a.x3);
    let b = turn_if(n % 2 == 1, z, 9);
    turn_if(n / 2 % 2 == 1, b, 6)
}

// c0 + a c1 + a² c2, shown by phase ph.
fn thirds(out: &mut [i64; 12], ph: Phase, c0: Num, c1: Num, c2: Num)
    requires { Within most_w c0 × Within most_w c1 × Within most_w c2 }
    ensures { out.new ≡ shown_at ph.n (c0 +N (turn_n 4 c1 +N turn_n 8 c2)) out.old }
{
    let n = c0 + (turn(c1, 4) + turn(c2, 8));
    phase(out, ph, n);
}

// Three phases from f on, of u, v and w. In the i-th v is turned by a^(2i), w by aⁱ, and all by t^(8p), which is 1, a² or a: so each of the three only comes to stand over another of 1, a and a².
fn three(out: &mut [i64; 12], p: Phase, f: Phase, u: Num, v: Num, w: Num)
    requires { Within most_w u × Within most_w v × Within most_w w }
    ensures { out.new ≡ laid f.n (sum_of p.n u v w) out.old }
{
    let g = f.next();
    let h = g.next();
    let all = u + (v + w);
    match p.n {
        0 => {
            phase(out, f, all);
            thirds(out, g, u, w, v);
            thirds(out, h, u, v, w);
        },
        1 => {
            phase(out, f, turn(all, 8));
            thirds(out, g, w, v, u);
            thirds(out, h, v, w, u);
        },
        _ => {
            phase(out, f, turn(all, 4));
            thirds(out, g, v, u, w);
            thirds(out, h, w, u, v);
        },
    }
}

// Phases a, b and c. The zero sequence is not turned by d, the positive one is turned back and the negative one forth. A turn is at most 256 clocks of 11.
pub(crate) fn phases(out: &mut [i64; 12], p: Phase, sj: usize, sk: usize, x: Seq)
    requires turn_bound { (sj ≤ 2816) × (sk ≤ 2816) }
    requires x_plane { EachSeq (Plane most_w) x }
    ensures { out.new ≡ flat (phases p.n sj sk x) }
{
    let back = 11 * sj + sk;
    let forth = sj + 11 * sk;
    let u = quarters(x.s0, 0);
    let v = quarters(x.s1, back);
    let w = quarters(x.s2, forth);
    let f = Phase {
        n: (p.n + back) % 3,
    };
    three(out, p, f, u, v, w);
}
