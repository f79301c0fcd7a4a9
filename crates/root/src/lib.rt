// The greatest n with n * n * den <= num, for whole numbers of 128 bits.
#![tactic(auto)]

mod guess;

ghost use Rattle.std.specs.Prelude.{◌≡◌, ◌<◌, ◌≤◌, ◌*◌, nat_le};
ghost use Rattle.root.specs.Root.{Root};

// Whole, as no product of two words passes 128 bits.
pub fn product(u: u64, v: u64) -> u128
    ensures { result ≡ u * v }
{
    u128::from(u) * u128::from(v)
}

// n * n * den <= num: a product past 128 bits is over any num.
fn reaches(n: u64, num: u128, den: u128) -> bool
    ensures { result ≡ nat_le (n * n * den) num }
{
    match product(n, n).checked_mul(den) {
        Some(p) => p <= num,
        None => false,
    }
}

// m where it lies above lo and no higher than top, and else the middle of them.
fn between(m: u64, lo: u64, top: u64) -> u64
    requires { lo < top }
    ensures { (lo < result) × (result ≤ top) }
{
    if lo < m && m <= top {
        m
    } else {
        top - (top - lo) / 2
    }
}

// The greatest n with n * n * den <= num. It lies from lo to top. A guess is tried first, then what is a step from
// the last try, with steps that double, and the middle where a step leaves the bracket or wraps. A guess that is
// right, or one too large, takes two tests. No index is counted: the bracket narrows until its ends meet.
pub fn root(num: u128, den: u128) -> u64
    requires { 1 ≤ den }
    ensures { Root num den result }
{
    let mut lo = 0;
    let mut top = u64::MAX;
    let mut next = guess::near(num, den);
    let mut step = 1u64;
    while lo < top {
        let m = between(next, lo, top);
        if reaches(m, num, den) {
            lo = m;
            next = m.wrapping_add(step);
        } else {
            top = m - 1;
            next = m.wrapping_sub(step);
        }
        step <<= 1;
    }
    lo
}
