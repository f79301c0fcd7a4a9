// The kind table, column by column: clocks (9), what must hold of a record's impedances (10), zero sequence; a transformer's z1 forgotten (21); and the test of an impedance's size.
#![tactic(auto)]

pub mod clock;
pub mod forgotten;
pub mod impedance;
pub mod must_hold;
pub mod zero;

ghost use Rattle.std.specs.Prelude.{◌≡◌};
ghost use Rattle.kind.specs.Named.{named};

// The rows of the table. A board keeps its kind as the number that its record says, since 9 is tried long after the record is read: so each function takes the number, and looks its row up.
#[derive(Clone, Copy, PartialEq, Eq)]
pub enum Kind {
    Source,
    FloatingSource,
    Cable,
    StarStar,
    DeltaStar,
    Blocking,
}

// A number that is no kind.
#[derive(Clone, Copy, PartialEq, Eq)]
pub struct UnknownKind(pub u8);

impl TryFrom<u8> for Kind {
    type Error = UnknownKind;

    ghost try_from_gives = { λ n r. r ≡ named n };

    fn try_from(kind: u8) -> Result<Self, UnknownKind> {
        match kind {
            0 => Ok(Kind::Source),
            1 => Ok(Kind::FloatingSource),
            2 => Ok(Kind::Cable),
            3 => Ok(Kind::StarStar),
            4 => Ok(Kind::DeltaStar),
            5 => Ok(Kind::Blocking),
            _ => Err(UnknownKind(kind)),
        }
    }
}
