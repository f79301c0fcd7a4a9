// Numbers in a row, to a line's end.
ghost use Rattle.std.specs.Prelude.{◌∷◌, [], pos};
ghost use Rattle.decimal.specs.Decimal.{decimal, row};
ghost use Rattle.decimal.specs.Writing.{Fits, Writes};

use crate::Pen;

impl<'a> Pen<'a> {
    // A number without a sign, a space before it.
    pub fn field(&mut self, n: u64)
        requires { Fits (0x20 ∷ decimal n) self.old }
        ensures { Writes (0x20 ∷ decimal n) self.old self.new }
    {
        self.byte(b' ');
        self.decimal(n);
    }

    // Two numbers without a sign, to the line's end.
    pub fn pair(&mut self, m: u64, n: u64)
        requires { Fits (row (pos m ∷ pos n ∷ [])) self.old }
        ensures { Writes (row (pos m ∷ pos n ∷ [])) self.old self.new }
    {
        self.field(m);
        self.field(n);
        self.byte(b'\n');
    }

    // A line's last byte before its numbers, the numbers, the line's end.
    pub fn row(&mut self, head: u8, zs: &[i64])
        requires { Fits (head ∷ row zs.now) self.old }
        ensures { Writes (head ∷ row zs.now) self.old self.new }
    {
        self.byte(head);
        for z in zs {
            self.number(*z);
        }
        self.byte(b'\n');
    }
}
