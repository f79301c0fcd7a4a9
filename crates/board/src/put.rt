// Numbers put into a lent part of the answer buffer.
ghost use Rattle.std.specs.Prelude.{◌≡◌};
ghost use Rattle.board.specs.Put.{shown_at};

use crate::phases::Phase;
use turn::Num;

// A number over the places of a phase, in a part of three.
pub(crate) fn phase(out: &mut [i64; 12], ph: Phase, n: Num)
    ensures { out.new ≡ shown_at ph.n n out.old }
{
    let a = 4 * ph.n;
    // Tried: copy_from_slice of the four, which is compiled to a copy by way of the stack. Of 32 boards a call then takes 1.24 times the yardstick's time, where 1.2 is the bar and this takes 1.18.
    out[a] = n.x0;
    out[a + 1] = n.x1;
    out[a + 2] = n.x2;
    out[a + 3] = n.x3;
}
