// Bytes and numbers as text, written with a pen into a lent buffer; in the modules numbers in a row, and numbers as bytes.
#![tactic(auto)]

pub mod little;
pub mod row;

ghost use Rattle.std.specs.Prelude.{◌∷◌, [], ◌≡◌, nat_abs};
ghost use Rattle.decimal.specs.Decimal.{decimal, signed};
ghost use Rattle.decimal.specs.Writing.{Fits, Writes};

// A lent buffer, and the place in it behind what is written.
#[derive(Drop)]
pub struct Pen<'a> {
    pub out: &'a mut [u8],
    pub at: usize,
}

impl<'a> Pen<'a> {
    pub fn byte(&mut self, b: u8)
        requires { Fits (b ∷ []) self.old }
        ensures { Writes (b ∷ []) self.old self.new }
    {
        self.out[self.at] = b;
        self.at += 1;
    }

    pub fn bytes(&mut self, s: &[u8])
        requires { Fits s.now self.old }
        ensures { Writes s.now self.old self.new }
    {
        let end = self.at + s.len();
        self.out[self.at..end].copy_from_slice(s);
        self.at = end;
    }

    // A number without a sign. The last digit goes behind the others.
    pub(crate) fn decimal(&mut self, n: u64)
        requires { Fits (decimal n) self.old }
        ensures { Writes (decimal n) self.old self.new }
    {
        if n < 10 {
            return self.byte(0x30 + n as u8);
        }
        self.decimal(n / 10);
        self.byte(0x30 + (n % 10) as u8);
    }

    // A space, and a number with its sign.
    pub(crate) fn number(&mut self, z: i64)
        requires { Fits (0x20 ∷ signed z) self.old }
        ensures { Writes (0x20 ∷ signed z) self.old self.new }
    {
        let n = magnitude(z);
        self.byte(b' ');
        if z < 0 {
            self.byte(b'-');
            return self.decimal(n);
        }
        self.decimal(n);
    }
}

// How far a number is from 0; the least number has its own too. What may not change: its rows are `magnitude_not`.
pub fn magnitude(z: i64) -> u64
    ensures { result ≡ nat_abs z }
{
    z.unsigned_abs()
}
