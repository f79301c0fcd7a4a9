// A label is looked for in a lent slice of boards, from the front, by its bytes: who calls this has put both in capitals.
ghost use Rattle.std.specs.Prelude.{◌≡◌};
ghost use Rattle.std.specs.List.{position};
ghost use Rattle.paper.specs.Bytes.{same_bytes};
ghost use Rattle.label.specs.Places.{spelt_at};

use crate::same_bytes;
use paper::Board;

// Whether the label is the board's.
pub(crate) fn labelled(b: Board, label: [u8; 12]) -> bool
    ensures { result ≡ same_bytes label b.label }
{
    same_bytes(label, b.label)
}

// Counted from 0.
fn first(boards: &[Board], label: [u8; 12]) -> Option<usize>
    ensures { result ≡ position (λ b. same_bytes label b.label) boards.now }
{
    boards.iter().position(|b| labelled(*b, label))
}

// The first place with the label, counted from 1; none: 0, as the paper's `place_of` has it.
pub(crate) fn find(boards: &[Board], label: [u8; 12]) -> usize
    ensures { result ≡ spelt_at label boards.now }
{
    match first(boards, label) {
        Some(i) => i + 1,
        None => 0,
    }
}
