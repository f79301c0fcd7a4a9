// Where the search for a root begins. Nothing rests on how near that is, so no contract speaks of it: below 2^31
// the root is nearly always the guess or one less.

// A number by its 64 leading bits and the zeros before them, in 128: about head * 2^(64 - zeros). Of 0 the zeros are 128.
#[derive(Clone, Copy)]
struct Lead {
    head: u64,
    zeros: u32,
}

impl From<u128> for Lead {
    // Of the zeros, % 128 takes something off where the number is 0 alone.
    fn from(n: u128) -> Lead {
        let zeros = n.leading_zeros();
        Lead {
            head: ((n << (zeros % 128)) >> 64) as u64,
            zeros,
        }
    }
}

// Newton's step from x to the root of 2 * m.
fn closer(m: u64, x: u64) -> u64 {
    let h = x / 2 + 1;
    h + m / 2 / h
}

// The root of 2 * m to 30 bits, for m from 2^60 to 2^63: three steps from a line that is within a tenth of it.
fn root_of_twice(m: u64) -> u64 {
    closer(m, closer(m, closer(m, m / 3221225472 + 1300000000)))
}

// One more than about the root of num / den. With e half of d, which num is longer by, m is num / den * 2^(61 - 2e), so
// the root of 2 * m is the one sought times 2^(31 - e). Of e, % 64 takes nothing off. Of num 0 it is 1.
pub(super) fn near(num: u128, den: u128) -> u64 {
    let a = Lead::from(num);
    let b = Lead::from(den);
    if b.zeros < a.zeros {
        return 1;
    }
    let d = b.zeros - a.zeros;
    let k = 29 + d % 2;
    let by = b.head / 4294967296 + 1;
    let m = ((a.head / by) << k) | (((a.head % by) << k) / by);
    let x = root_of_twice(m);
    ((x << 32) >> (63 - d / 2 % 64)).wrapping_add(1)
}
