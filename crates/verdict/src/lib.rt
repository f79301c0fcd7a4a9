// What a call returns, made of a refusal or of what was answered; and the record that it speaks of, shown in the bytes that it came in.
#![tactic(auto)]

pub mod said;
pub mod shown;

ghost use Rattle.std.specs.Prelude.{◌≡◌, ◌≤◌};
ghost use Rattle.paper.specs.Refusal.{the_record};
ghost use Rattle.paper.specs.Answer.{refused};

use paper::{Answer, Part, Refusal};

// "Refused: number, place, N = 0, amps = 0"
pub fn refused(why: Refusal) -> Answer
    ensures { result ≡ refused why }
{
    Answer {
        amps: 0,
        part: why.part,
        place: why.place,
        n: 0,
        number: why.number,
    }
}

// "Accepted: number 0, the place of the faulted board's record, N, the amps." "Accepted: part is board k's record."
pub fn accepted(amps: u64, k: u16, n: u16) -> Answer
    requires { 1 ≤ k }
    ensures { result ≡ record { amps = amps; part = the_record k; place = k; n = n; number = 0 } }
{
    Answer {
        amps,
        part: Part::of_record(k),
        place: k,
        n,
        number: 0,
    }
}
