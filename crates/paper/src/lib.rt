// The files and the answer of the paper, as the crates above pass them to each other. What each field means stands in specs/.
#![tactic(auto)]

ghost use Rattle.std.specs.Prelude.{◌≡◌, ◌≤◌};
ghost use Rattle.paper.specs.Bytes.{part};
ghost use Rattle.paper.specs.Fault.{num_of};
ghost use Rattle.paper.specs.Refusal.{the_record};
ghost use Rattle.paper.specs.Rule.{number_of};

use turn::Num;

// An impedance, in counts. C's layout, as Board's.
#[repr(C)]
#[derive(Clone, Copy, PartialEq, Eq)]
pub struct Ohms {
    pub r: u16,
    pub x: u16,
}

impl Ohms {
    // No impedance at all.
    pub const ZERO: Ohms = Ohms { r: 0, x: 0 };
}

// R + jX.
impl From<Ohms> for Num {
    ghost from_gives = { λ z n. n ≡ num_of z };

    fn from(z: Ohms) -> Num {
        Num::complex(z.r as i64, z.x as i64)
    }
}

// The head without its mark.
#[derive(Clone, Copy)]
pub struct Head {
    pub volts: u16,
    pub unit: u16,
    pub boards: u16,
}

// A board's record without its mark. The feeder is kept as it was written, and the kind as its number: C lends it, and 9 is of numbers that are no kind. Programs in C lend boards, so they lie as C lays them out.
#[repr(C)]
#[derive(Clone, Copy)]
pub struct Board {
    pub z1: Ohms,
    pub z2: Ohms,
    pub z0: Ohms,
    pub zn: Ohms,
    pub label: [u8; 12],
    pub feeder: [u8; 12],
    pub kind: u8,
    pub clock: u8,
}

// The fault's record without its mark. The kind is its number: 15 is of numbers that are no kind, and is tried behind 14.
#[derive(Clone, Copy)]
pub struct Fault {
    pub zf: Ohms,
    pub label: [u8; 12],
    pub kind: u8,
    pub phase: u8,
}

// A current or a voltage in its three sequences: positive, negative, zero.
#[derive(Clone, Copy)]
pub struct Seq {
    pub s1: Num,
    pub s2: Num,
    pub s0: Num,
}

// The bytes that a call is lent: the network's, and those that say what is asked of it.
#[derive(Clone, Copy, PartialEq, Eq)]
pub enum Lent {
    NetworkBytes,
    FaultBytes,
    LabelBytes,
}

// A part of them.
#[derive(Clone, Copy)]
pub struct Part {
    pub whose: Lent,
    pub start: usize,
    pub len: usize,
}

impl Part {
    // No bytes.
    pub const NONE: Part = Part {
        whose: Lent::NetworkBytes,
        start: 0,
        len: 0,
    };

    // Record r of the network.
    pub fn of_record(r: u16) -> Part
        requires { 1 ≤ r }
        ensures { result ≡ the_record r }
    {
        Part {
            whose: Lent::NetworkBytes,
            start: 8 + 44 * (usize::from(r) - 1),
            len: 44,
        }
    }
}

// The rules of the refusal table by name, each with its number there. 18 is withdrawn.
#[derive(Clone, Copy, PartialEq, Eq)]
pub enum Rule {
    ShortNetwork = 1,
    HeadMark = 2,
    HeadValues = 3,
    NetworkLength = 4,
    BoardMark = 5,
    LabelForm = 6,
    LabelUsed = 7,
    Feeder = 8,
    KindOrClock = 9,
    Impedance = 10,
    Sum = 11,
    FaultLength = 12,
    FaultMark = 13,
    UnknownBoard = 14,
    FaultKind = 15,
    FaultPhase = 16,
    FaultImpedance = 17,
    ShortBuffer = 19,
    ShortOutput = 20,
    Forgotten = 21,
}

impl Rule {
    // No plainer by `From<Rule> for u8`: `rule.number()` says what the number is.
    pub fn number(self) -> u8
        ensures { result ≡ number_of self }
    {
        self as u8
    }
}

// The first rule that was broken: its number, the place that it names, the bytes that it shows. The number is the paper's own word, and may not change: `first` (specs/Rows) and every figure say it; until a refusal is made, a rule goes by its name.
#[derive(Clone, Copy)]
pub struct Refusal {
    pub part: Part,
    pub place: u16,
    pub number: u8,
}

impl Refusal {
    // By a rule that names no place: the first bytes of what was lent are shown.
    pub fn at_the_front(rule: Rule, whose: Lent, len: usize) -> Refusal
        ensures { result ≡ record { part = part whose 0 len; place = 0; number = number_of rule } }
    {
        let part = Part {
            whose,
            start: 0,
            len,
        };
        Refusal {
            part,
            place: 0,
            number: rule.number(),
        }
    }
}

// What a call returns, in one struct for an answer and a refusal (number not 0): the paper names these fields, and `verdict` (specs/Answer) says them. C gets them one by one.
#[derive(Clone, Copy)]
pub struct Answer {
    pub amps: u64,
    pub part: Part,
    pub place: u16,
    pub n: u16,
    pub number: u8,
}

// What writing a network file returns, in one struct as Answer (`write_verdict`, specs/Write): the file's length, or the first rule that the boards break.
#[derive(Clone, Copy)]
pub struct Written {
    pub part: Part,
    pub len: usize,
    pub place: u16,
    pub number: u8,
}

// Why a board has an earth return, or has none: the record that its zero sequence starts from, or the record that stops it.
#[derive(Clone, Copy)]
pub enum EarthReturn {
    From(u16),
    Stopped(u16),
}
