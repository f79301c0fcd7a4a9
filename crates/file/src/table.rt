// An empty place of a table of boards.
ghost use Rattle.std.specs.Prelude.{◌≡◌};
ghost use Rattle.node.specs.Tables.{empty_board};

use paper::{Board, Ohms};

pub fn empty_board() -> Board
    ensures { result ≡ empty_board }
{
    Board {
        z1: Ohms::ZERO,
        z2: Ohms::ZERO,
        z0: Ohms::ZERO,
        zn: Ohms::ZERO,
        label: [0; 12],
        feeder: [0; 12],
        kind: 0,
        clock: 0,
    }
}
