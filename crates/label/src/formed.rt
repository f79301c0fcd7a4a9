// A label's form: letters, then spaces (6).
ghost use Rattle.std.specs.Prelude.{◌≡◌};
ghost use Rattle.lemmas.specs.Little.{little};
ghost use Rattle.paper.specs.Label.{visible_then_blank, formed};

use crate::{first_eight, last_four};
use file::field::SPACE;

// Eight bytes at once, 0x80 saying yes in each: each is 0x20 to 0x7E, and none that is shown stands right behind a space.
// The sums of a byte of 0x80 or above can reach the next byte: it is wrong itself, so what they say of others is nobody's.
// By words, a rule of docs/DECISIONS.md, 88: a loop over the bytes was almost half of what judging a record took.
fn letters_then_spaces(w: u64) -> bool
    ensures { result ≡ visible_then_blank (little 8 w) }
{
    let past_space = w.wrapping_add(0x5F5F_5F5F_5F5F_5F5F);
    let from_space = w.wrapping_add(0x6060_6060_6060_6060);
    let delete = w.wrapping_add(0x0101_0101_0101_0101);
    let outside = (from_space ^ 0x8080_8080_8080_8080) | delete | w;
    let late = (past_space / 256) & (past_space ^ 0x8080_8080_8080_8080);
    ((outside | late) & 0x8080_8080_8080_8080) == 0
}

// Bytes 0 to 7 and 4 to 11: each two neighbours stand in one of the words.
pub fn formed(l: [u8; 12]) -> bool
    ensures { result ≡ formed l }
{
    let first = l[0];
    let w = first_eight(l);
    let v = last_four(l) as u64;
    let u = w / 0x1_0000_0000 + v * 0x1_0000_0000;
    (first != SPACE) & letters_then_spaces(w) & letters_then_spaces(u)
}
