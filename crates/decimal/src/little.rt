// Numbers as bytes, the lowest first.
ghost use Rattle.std.specs.Prelude.{◌≡◌};
ghost use Rattle.decimal.specs.Word.{word_of};
ghost use Rattle.decimal.specs.Writing.{Fits, Writes};
ghost use Rattle.lemmas.specs.Little.{little};

use crate::Pen;

impl<'a> Pen<'a> {
    // The N low bytes. N is known where this is compiled, so they become one store.
    pub fn little<const N: usize>(&mut self, n: u64)
        requires { Fits (little N n) self.old }
        ensures { Writes (little N n) self.old self.new }
    {
        let mut rest = n;
        for _ in 0..N {
            self.byte((rest % 256) as u8);
            rest /= 256;
        }
    }
}

// -1 is the greatest, and so on down. What may not change: its rows are `word_not`.
pub fn word(z: i64) -> u64
    ensures { result ≡ word_of z }
{
    z.cast_unsigned()
}
