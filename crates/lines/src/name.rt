// Labels, without their closing spaces.
ghost use Rattle.std.specs.Prelude.{◌≡◌, length};
ghost use Rattle.lines.specs.Name.{unspaced};
ghost use Rattle.decimal.specs.Writing.{Fits, Writes};

use decimal::Pen;

// How many bytes are left of a label. From the back: the first that is no space is the last.
pub(crate) fn letters(l: [u8; 12]) -> usize
    ensures { result ≡ length (unspaced l) }
{
    match l.iter().rposition(|b| *b != b' ') {
        Some(last) => last + 1,
        None => 0,
    }
}

pub(crate) fn put_label(pen: &mut Pen<'_>, l: [u8; 12])
    requires { Fits (unspaced l) pen.old }
    ensures { Writes (unspaced l) pen.old pen.new }
{
    let n = letters(l);
    pen.bytes(&l[..n]);
}
