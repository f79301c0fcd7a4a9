// `solve`, `write` and `earth` for programs in C and Rust: the three functions that `ranjupeli_c` exports, and their answers as C lays them out.
#![tactic(auto)]

ghost use Rattle.std.specs.Prelude.{◌≡◌, length};
ghost use Rattle.paper.specs.Answer.{verdict, written};
ghost use Rattle.paper.specs.Write.{write_verdict, write_leaves};
ghost use Rattle.paper.specs.Return.{said, refused_by, earth_said};
ghost use Rattle.ranjupeli.specs.Reply.{owner_of, reply_of, write_reply_of, earth_reply_of};

use paper::{Answer, Board, EarthReturn, Lent, Refusal, Written};

// An answer without an enum and without a struct inside. bindings/ranjupeli.h says the same fields in the same order.
#[repr(C)]
#[derive(Clone, Copy)]
pub struct Reply {
    pub amps: u64,
    pub start: usize,
    pub len: usize,
    pub place: u16,
    pub n: u16,
    pub number: u8,
    pub owner: u8,
}

// Whose bytes the part is of: 0 the network's, 1 the fault's, 2 the label's.
fn owner(whose: Lent) -> u8
    ensures { result ≡ owner_of whose }
{
    whose as u8
}

impl From<Answer> for Reply {
    ghost from_gives = { λ a r. r ≡ reply_of a };

    fn from(a: Answer) -> Reply {
        Reply {
            amps: a.amps,
            start: a.part.start,
            len: a.part.len,
            place: a.place,
            n: a.n,
            number: a.number,
            owner: owner(a.part.whose),
        }
    }
}

// Any network, any fault, any buffer: nothing is asked of the caller but that what it lends is there.
pub fn ranjupeli_solve(net: &[u8], flt: &[u8], buffer: &mut [i64]) -> Reply
    ensures value { result ≡ reply_of (verdict net.now flt.now (length buffer.old)) }
    ensures buffer_after { buffer.new ≡ written net.now flt.now buffer.old }
{
    let a = solve::solve(net, flt, buffer);
    Reply::from(a)
}

// What writing returned, as C lays it out. There is no part: no bytes were given.
#[repr(C)]
#[derive(Clone, Copy)]
pub struct WriteReply {
    pub len: usize,
    pub place: u16,
    pub number: u8,
}

impl From<Written> for WriteReply {
    ghost from_gives = { λ w r. r ≡ write_reply_of w };

    fn from(w: Written) -> WriteReply {
        WriteReply {
            len: w.len,
            place: w.place,
            number: w.number,
        }
    }
}

// Any numbers, any boards, any buffer: nothing is asked of the caller but that what it lends is there.
pub fn ranjupeli_write(volts: u16, unit: u16, boards: &[Board], out: &mut [u8]) -> WriteReply
    ensures value { result ≡ write_reply_of (write_verdict volts unit boards.now (length out.old)) }
    ensures out_after { out.new ≡ write_leaves volts unit boards.now out.old }
{
    WriteReply::from(writer::write(volts, unit, boards, out))
}

// What asking for an earth return gave, as C lays it out: number 0, whether there is one (1, else 0) and the record that is named; or the rule that is broken. An answer shows no bytes.
#[repr(C)]
#[derive(Clone, Copy)]
pub struct EarthReply {
    pub start: usize,
    pub len: usize,
    pub place: u16,
    pub number: u8,
    pub owner: u8,
    pub earthed: u8,
}

fn named(place: u16, earthed: u8) -> EarthReply
    ensures { result ≡ record { start = 0; len = 0; place = place; number = 0; owner = 0; earthed = earthed } }
{
    EarthReply {
        start: 0,
        len: 0,
        place,
        number: 0,
        owner: 0,
        earthed,
    }
}

impl From<Refusal> for EarthReply {
    ghost from_gives = { λ why r. r ≡ earth_reply_of (refused_by why) };

    fn from(why: Refusal) -> EarthReply {
        EarthReply {
            start: why.part.start,
            len: why.part.len,
            place: why.place,
            number: why.number,
            owner: owner(why.part.whose),
            earthed: 0,
        }
    }
}

impl From<Result<EarthReturn, Refusal>> for EarthReply {
    ghost from_gives = { λ e r. r ≡ earth_reply_of (said e) };

    fn from(e: Result<EarthReturn, Refusal>) -> EarthReply {
        match e {
            Ok(EarthReturn::From(r)) => named(r, 1),
            Ok(EarthReturn::Stopped(r)) => named(r, 0),
            Err(why) => EarthReply::from(why),
        }
    }
}

// Any network, any label: nothing is asked of the caller but that what it lends is there.
pub fn ranjupeli_earth(net: &[u8], label: &[u8]) -> EarthReply
    ensures { result ≡ earth_reply_of (earth_said net.now label.now) }
{
    EarthReply::from(return_path::earth(net, label))
}
