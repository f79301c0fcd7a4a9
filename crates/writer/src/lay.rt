// The file's bytes, laid down in the lent buffer.
ghost use Rattle.std.specs.Prelude.{◌≡◌, min, take};
ghost use Rattle.paper.specs.Write.{ohms_bytes, head_bytes, board_bytes, boards_bytes};
ghost use Rattle.decimal.specs.Wrote.{Room, Wrote};
ghost use Rattle.decimal.specs.Writing.{Fits, Writes};
ghost use Rattle.writer.specs.RoundTrip.{Typed, AllTyped};

use decimal::Pen;
use file::field::{BD, HD};
use paper::{Board, Head, Ohms};

fn put_ohms(pen: &mut Pen<'_>, z: Ohms)
    requires { Fits (ohms_bytes z) pen.old }
    ensures { Writes (ohms_bytes z) pen.old pen.new }
{
    pen.little::<2>(z.r as u64);
    pen.little::<2>(z.x as u64);
}

// A byte a turn, as many as are known where this is compiled: they become wide stores. `bytes` was tried: it asks at run time whether the two overlap, 50 instructions a board for 12.
fn put_label(pen: &mut Pen<'_>, l: [u8; 12])
    requires { Fits l pen.old }
    ensures { Writes l pen.old pen.new }
{
    for b in l {
        pen.byte(b);
    }
}

pub(crate) fn put_board(pen: &mut Pen<'_>, b: Board)
    requires { Fits (board_bytes b) pen.old }
    ensures { Writes (board_bytes b) pen.old pen.new }
{
    pen.little::<2>(BD as u64);
    put_label(pen, b.label);
    put_label(pen, b.feeder);
    pen.byte(b.kind);
    pen.byte(b.clock);
    put_ohms(pen, b.z1);
    put_ohms(pen, b.z2);
    put_ohms(pen, b.z0);
    put_ohms(pen, b.zn);
}

pub(crate) fn put_head(pen: &mut Pen<'_>, h: Head)
    requires { Fits (head_bytes h) pen.old }
    ensures { Writes (head_bytes h) pen.old pen.new }
{
    pen.little::<2>(HD as u64);
    pen.little::<2>(h.volts as u64);
    pen.little::<2>(h.unit as u64);
    pen.little::<2>(h.boards as u64);
}

// As many as a page has places for.
pub(crate) fn at_most_256(n: usize) -> usize
    ensures { result ≡ min 256 n }
{
    if n < 256 { n } else { 256 }
}

// What its type says of a board. A callee that takes it by value can say so; the slice that it lies in does not.
fn typed(b: Board)
    ensures { Typed b }
{}

// And so of every slice of boards that is lent. Nothing is done with them: only a proof wants this call, and the compiler leaves it out.
pub(crate) fn typed_boards(boards: &[Board])
    ensures { AllTyped boards.now }
{
    for b in boards {
        typed(*b);
    }
}

// A board a turn, straight from the boards lent, behind room for a head. Of more than 256 the rest is left: their count alone refuses them.
pub(crate) fn put_boards(page: &mut [u8], boards: &[Board]) -> usize
    requires { Room 8 (boards_bytes (take 256 boards.now)) page.old }
    ensures { Wrote 8 (boards_bytes (take 256 boards.now)) page.old page.new result }
{
    let n = at_most_256(boards.len());
    let mut pen = Pen { out: page, at: 8 };
    for b in &boards[..n] {
        put_board(&mut pen, *b);
    }
    pen.at
}
