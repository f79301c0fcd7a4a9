// What the kind table says of zero sequence: the word of a kind, and the term that a record adds.
ghost use Rattle.std.specs.Prelude.{◌≡◌};
ghost use Rattle.paper.specs.Kind.{◌+Ω◌, thrice, kind_of, zero_term};
ghost use Rattle.paper.specs.Bounds.{AtMost};
ghost use Rattle.kind.specs.Zero.{zero_word};

use crate::Kind;
use paper::{Board, Ohms};

// The column "Zero sequence" without its terms.
#[derive(Clone, Copy, PartialEq, Eq)]
pub enum ZeroWord {
    Starts,
    GoesOn,
    Blocked,
}

pub fn zero_word(kind: u8) -> ZeroWord
    ensures { result ≡ zero_word (kind_of kind).zero_seq }
{
    match Kind::try_from(kind) {
        Ok(Kind::Source) => ZeroWord::Starts,
        Ok(Kind::FloatingSource) => ZeroWord::Blocked,
        Ok(Kind::Cable) => ZeroWord::GoesOn,
        Ok(Kind::StarStar) => ZeroWord::GoesOn,
        Ok(Kind::DeltaStar) => ZeroWord::Starts,
        Ok(Kind::Blocking) => ZeroWord::Blocked,
        Err(_) => ZeroWord::Blocked,
    }
}

fn with_neutral(z0: Ohms, zn: Ohms) -> Ohms
    requires { AtMost 4095 z0 × AtMost 4095 zn }
    ensures { result ≡ z0 +Ω thrice zn }
{
    Ohms {
        r: z0.r + 3 * zn.r,
        x: z0.x + 3 * zn.x,
    }
}

pub fn zero_term(b: Board) -> Ohms
    requires { AtMost 4095 b.z0 × AtMost 4095 b.zn }
    ensures { result ≡ zero_term (kind_of b.kind).zero_seq b }
{
    let earthed = with_neutral(b.z0, b.zn);
    match Kind::try_from(b.kind) {
        Ok(Kind::Source) => earthed,
        Ok(Kind::FloatingSource) => Ohms::ZERO,
        Ok(Kind::Cable) => b.z0,
        Ok(Kind::StarStar) => earthed,
        Ok(Kind::DeltaStar) => earthed,
        Ok(Kind::Blocking) => Ohms::ZERO,
        Err(_) => Ohms::ZERO,
    }
}
