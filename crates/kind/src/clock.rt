// The kind table: the test of a board's kind and clock (9).
ghost use Rattle.std.specs.Prelude.{◌≡◌};
ghost use Rattle.paper.specs.Bytes.{one_of};
ghost use Rattle.paper.specs.Kind.{kind_of};
ghost use Rattle.paper.specs.Refusal.{kind_wrong};

use crate::Kind;
use paper::Board;

// An unknown kind has no clock, so `kind_wrong` need not ask whether it is known.
fn clock_listed(kind: u8, clock: u8) -> bool
    ensures { result ≡ one_of clock (kind_of kind).clocks }
{
    match Kind::try_from(kind) {
        Ok(Kind::Source) => clock == 0,
        Ok(Kind::FloatingSource) => clock == 0,
        Ok(Kind::Cable) => clock == 0,
        Ok(Kind::StarStar) => clock == 0,
        Ok(Kind::DeltaStar) => (clock < 12) & (clock % 2 == 1),
        Ok(Kind::Blocking) => clock < 12,
        Err(_) => false,
    }
}

// "Kinds 0 and 1 occur in record 1 and only there". By the number, and no plainer by name: a match would need an arm for what is no kind.
pub fn kind_wrong(r: usize, b: Board) -> bool
    ensures { result ≡ kind_wrong r b }
{
    let source = b.kind < 2;
    !clock_listed(b.kind, b.clock) | (source != (r == 1))
}
