// The kinds of fault by name: what is matched from here on are names, and no number.
ghost use Rattle.std.specs.Prelude.{◌≡◌};
ghost use Rattle.fault.specs.Kinds.{kind_of};

// What touches what. Nothing is a row of its own (docs/DECISIONS.md, 27), which one phase to earth without earth return has too: so no Option.
#[derive(Clone, Copy)]
pub enum FaultKind {
    ThreePhases,
    OneToEarth,
    TwoPhases,
    TwoToEarth,
    Nothing,
}

impl From<u8> for FaultKind {
    ghost from_gives = { λ n k. k ≡ kind_of n };

    fn from(number: u8) -> FaultKind {
        match number {
            0 => FaultKind::ThreePhases,
            1 => FaultKind::OneToEarth,
            2 => FaultKind::TwoPhases,
            3 => FaultKind::TwoToEarth,
            _ => FaultKind::Nothing,
        }
    }
}
