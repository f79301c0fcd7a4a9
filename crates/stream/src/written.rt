// The bytes of an answer of `write`, laid down in a lent buffer.
ghost use Rattle.decimal.specs.Writing.{Fits, Writes};
ghost use Rattle.stream.specs.Layout.{written_of};

use crate::part::{put_part, put_three};
use decimal::Pen;
use paper::Written;

// An answer, and every byte of the output behind it: those of the file, and those that were there before.
pub fn put_written(pen: &mut Pen<'_>, given: Written, file: &[u8])
    requires { Fits (written_of given file.now) pen.old }
    ensures { Writes (written_of given file.now) pen.old pen.new }
{
    put_three(
        pen,
        given.number as u64,
        given.place as u64,
        given.len as u64,
    );
    put_part(pen, given.part);
    pen.little::<4>(file.len() as u64);
    pen.bytes(file);
}
