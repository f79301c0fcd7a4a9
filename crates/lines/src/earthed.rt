// The line about an earth return, written into a lent buffer.
ghost use Rattle.std.specs.Prelude.{◌∷◌, [], pos};
ghost use Rattle.decimal.specs.Writing.{Fits, Writes};
ghost use Rattle.paper.specs.Return.{said};
ghost use Rattle.lines.specs.Lines.{line};
ghost use Rattle.lines.specs.Earth.{earth_text};

use crate::put_refusal;
use decimal::Pen;
use paper::{EarthReturn, Refusal};

// Words, and the number of a record.
fn put_record(pen: &mut Pen<'_>, words: &[u8], place: u16)
    requires { Fits (line words.now (pos place ∷ [])) pen.old }
    ensures { Writes (line words.now (pos place ∷ [])) pen.old pen.new }
{
    pen.bytes(words);
    pen.field(place as u64);
    pen.byte(b'\n');
}

pub fn put_earth(pen: &mut Pen<'_>, given: Result<EarthReturn, Refusal>)
    requires { Fits (earth_text (said given)) pen.old }
    ensures { Writes (earth_text (said given)) pen.old pen.new }
{
    match given {
        Ok(EarthReturn::From(r)) => put_record(pen, b"earth return from record", r),
        Ok(EarthReturn::Stopped(r)) => put_record(pen, b"none, stopped at record", r),
        Err(why) => put_refusal(pen, why.number, why.place),
    }
}
