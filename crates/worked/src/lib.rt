// The worked examples of docs/PROVING.md, proved: one for each tool of `lemmas` that a function's proof uses.
#![tactic(auto)]

ghost use Rattle.std.specs.Prelude.{◌≡◌, ◌+◌, ◌*◌, ◌^◌, ◌<◌, ◌≤◌, ◌-ℤ◌, ◌*ℤ◌, length};
ghost use Rattle.lemmas.specs.Small.{Small};
ghost use Rattle.lemmas.specs.Over.{over};
ghost use Rattle.worked.specs.Four.{four_of};

// An overflow, answered by computation.
pub fn less_square(a: i64, b: i64) -> i64
    requires { (Small (2 ^ 62) a) × (Small (2 ^ 30) b) }
    ensures { result ≡ a -ℤ b *ℤ b }
{
    a - b * b
}

// A table.
const SQUARES: [u16; 8] = [0, 1, 4, 9, 16, 25, 36, 49];

pub fn square(n: usize) -> u16
    requires { n < 8 }
    ensures { result ≡ n * n }
{
    SQUARES[n]
}

// A buffer: four numbers over a slice of four. By a loop and not `copy_from_slice`: docs/PROVING.md shows its invariant.
fn put(out: &mut [i64], v: [i64; 4])
    requires { length out.old ≡ 4 }
    ensures { out.new ≡ four_of v }
{
    for k in 0..4 {
        out[k] = v[k];
    }
}

// The same at a place of a longer one, of which that part is lent on.
pub fn fill(out: &mut [i64], a: usize, v: [i64; 4])
    requires { (a < 1000) × (a + 4 ≤ length out.old) }
    ensures { out.new ≡ over a (four_of v) out.old }
{
    put(&mut out[a..a + 4], v);
}
