// The bytes of an answer of `solve`, laid down in a lent buffer.
ghost use Rattle.decimal.specs.Writing.{Fits, Writes};
ghost use Rattle.stream.specs.Layout.{found_of, head_of, elements_of, bytes_of};

use crate::part::{put_part, put_three};
use decimal::Pen;
use decimal::little::word;
use paper::Answer;

// Number, place, N, amps.
fn put_found(pen: &mut Pen<'_>, given: Answer)
    requires { Fits (found_of given) pen.old }
    ensures { Writes (found_of given) pen.old pen.new }
{
    put_three(pen, given.number as u64, given.place as u64, given.n as u64);
    pen.little::<8>(given.amps);
}

fn put_head(pen: &mut Pen<'_>, given: Answer, shown: &[u8], room: usize)
    requires { Fits (head_of given shown.now room) pen.old }
    ensures { Writes (head_of given shown.now room) pen.old pen.new }
{
    put_found(pen, given);
    put_part(pen, given.part);
    pen.bytes(shown);
    pen.little::<4>(room as u64);
}

fn put_elements(pen: &mut Pen<'_>, zs: &[i64])
    requires { Fits (elements_of zs.now) pen.old }
    ensures { Writes (elements_of zs.now) pen.old pen.new }
{
    for z in zs {
        pen.little::<8>(word(*z));
    }
}

// An answer, the bytes that it shows, and every element of the buffer behind them.
pub fn put_answer(pen: &mut Pen<'_>, given: Answer, shown: &[u8], zs: &[i64])
    requires { Fits (bytes_of given shown.now zs.now) pen.old }
    ensures { Writes (bytes_of given shown.now zs.now) pen.old pen.new }
{
    put_head(pen, given, shown, zs.len());
    put_elements(pen, zs);
}
