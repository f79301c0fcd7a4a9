// The bytes of an answer of `earth`, laid down in a lent buffer.
ghost use Rattle.decimal.specs.Writing.{Fits, Writes};
ghost use Rattle.paper.specs.Return.{refused_by, said};
ghost use Rattle.stream.specs.Said.{named_of, said_of};

use crate::part::{put_part, put_three};
use decimal::Pen;
use paper::{EarthReturn, Refusal};

// A record, and whether there is an earth return: 1 or 0. No part is shown.
fn put_named(pen: &mut Pen<'_>, place: u16, earthed: u64, shown: &[u8])
    requires { Fits (named_of place earthed shown.now) pen.old }
    ensures { Writes (named_of place earthed shown.now) pen.old pen.new }
{
    put_three(pen, 0, place as u64, earthed);
    put_three(pen, 0, 0, 0);
    pen.bytes(shown);
}

fn put_refused(pen: &mut Pen<'_>, why: Refusal, shown: &[u8])
    requires { Fits (said_of (refused_by why) shown.now) pen.old }
    ensures { Writes (said_of (refused_by why) shown.now) pen.old pen.new }
{
    put_three(pen, why.number as u64, why.place as u64, 0);
    put_part(pen, why.part);
    pen.bytes(shown);
}

// An answer, and the bytes that it shows.
pub fn put_said(pen: &mut Pen<'_>, given: Result<EarthReturn, Refusal>, shown: &[u8])
    requires { Fits (said_of (said given) shown.now) pen.old }
    ensures { Writes (said_of (said given) shown.now) pen.old pen.new }
{
    match given {
        Ok(EarthReturn::From(r)) => put_named(pen, r, 1, shown),
        Ok(EarthReturn::Stopped(r)) => put_named(pen, r, 0, shown),
        Err(why) => put_refused(pen, why, shown),
    }
}
