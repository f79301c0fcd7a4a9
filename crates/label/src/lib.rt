// Labels: whether two are the same bytes, and in the modules their capitals, their form (6) and where one first stands among the boards.
// Whoever looks for labels calls `places::places_in`: it alone knows that they are compared in capitals.
#![tactic(auto)]

pub mod case;
pub mod formed;
pub mod places;
pub mod search;

ghost use Rattle.std.specs.Prelude.{◌≡◌};
ghost use Rattle.lemmas.specs.Bytewise.{little_endian};
ghost use Rattle.lemmas.specs.Table.{tab};
ghost use Rattle.paper.specs.Bytes.{u8_at, same_bytes};
ghost use Rattle.paper.specs.Label.{spaces};

use file::field::SPACE;

// One load each once compiled, this and the next.
fn first_eight(l: [u8; 12]) -> u64
    ensures { result ≡ little_endian (tab (u8_at l) 0 8) }
{
    u64::from_le_bytes([l[0], l[1], l[2], l[3], l[4], l[5], l[6], l[7]])
}

fn last_four(l: [u8; 12]) -> u32
    ensures { result ≡ little_endian (tab (u8_at l) 8 4) }
{
    u32::from_le_bytes([l[8], l[9], l[10], l[11]])
}

// In a search most labels are others, and most of these differ at their end: one look tells, and the search goes on.
// Stays by words: with `a == b` a search among 256 boards took four times as long, and the bar for the whole call is 1.2 times the yardstick's (docs/SPEED.md).
pub(crate) fn same_bytes(a: [u8; 12], b: [u8; 12]) -> bool
    ensures { result ≡ same_bytes a b }
{
    if last_four(a) != last_four(b) {
        return false;
    }
    first_eight(a) == first_eight(b)
}

// By its bytes: a feeder of spaces is no label.
#[tactic(auto, unfolding(paper::specs::Label::spaces))]
pub fn is_spaces(l: [u8; 12]) -> bool
    ensures { result ≡ same_bytes l spaces }
{
    same_bytes(l, [SPACE; 12])
}
