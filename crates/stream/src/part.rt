// What answers of all kinds share: three numbers in a row, and the part that is shown.
ghost use Rattle.std.specs.Prelude.{◌≡◌};
ghost use Rattle.decimal.specs.Writing.{Fits, Writes};
ghost use Rattle.stream.specs.Layout.{three_of, whose_of, part_of};

use decimal::Pen;
use paper::{Lent, Part};

pub(crate) fn put_three(pen: &mut Pen<'_>, a: u64, b: u64, c: u64)
    requires { Fits (three_of a b c) pen.old }
    ensures { Writes (three_of a b c) pen.old pen.new }
{
    pen.little::<4>(a);
    pen.little::<4>(b);
    pen.little::<4>(c);
}

// A table of the layout. A `From` cannot stand here: neither type is this crate's.
fn whose(lent: Lent) -> u64
    ensures { result ≡ whose_of lent }
{
    match lent {
        Lent::NetworkBytes => 1,
        Lent::FaultBytes => 2,
        Lent::LabelBytes => 3,
    }
}

pub(crate) fn put_part(pen: &mut Pen<'_>, part: Part)
    requires { Fits (part_of part) pen.old }
    ensures { Writes (part_of part) pen.old pen.new }
{
    put_three(pen, whose(part.whose), part.start as u64, part.len as u64);
}
