// Labels in capitals: "a to z are read as A to Z". Whoever compares labels in capitals compares bytes.
ghost use Rattle.std.specs.Prelude.{◌≡◌};
ghost use Rattle.paper.specs.Label.{capitals};
ghost use Rattle.follows.specs.Capitals.{board_in_capitals};

use paper::Board;

pub(crate) fn in_capitals(l: [u8; 12]) -> [u8; 12]
    ensures { result ≡ capitals l }
{
    l.map(|x| x.to_ascii_uppercase())
}

// Its label and its feeder: all else stays.
pub(crate) fn board_in_capitals(b: Board) -> Board
    ensures { result ≡ board_in_capitals b }
{
    Board {
        label: in_capitals(b.label),
        feeder: in_capitals(b.feeder),
        ..b
    }
}
