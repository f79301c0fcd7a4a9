// What is shown of what is said about an earth return.
ghost use Rattle.std.specs.Prelude.{◌≡◌};
ghost use Rattle.paper.specs.Return.{said};
ghost use Rattle.verdict.specs.Said.{part_said};

use paper::{EarthReturn, Part, Refusal};

// The part: a refusal's. An answer shows none of the bytes.
pub fn part_said(given: Result<EarthReturn, Refusal>) -> Part
    ensures { result ≡ part_said (said given).shown }
{
    match given {
        Ok(_) => Part::NONE,
        Err(why) => why.part,
    }
}
