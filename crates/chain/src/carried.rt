// The currents that each record carries to the fault.
ghost use Rattle.std.specs.Prelude.{◌≡◌};
ghost use Rattle.paper.specs.Phase.{only_if};
ghost use Rattle.chain.specs.Carried.{carried_of};

use paper::Seq;
use turn::Num;

// Named as the definition that both crates' clauses cite. A number where it counts, else zero: a current on the chain, a lift in the faulted board's part.
pub fn only_if(on: bool, n: Num) -> Num
    ensures { result ≡ only_if on n }
{
    if on { n } else { Num::whole(0) }
}

// The currents that a record carries: I1 and I2 on the chain, I0 if it also lies on the zero-sequence sum.
pub fn carried(on: bool, earth: bool, i: Seq) -> Seq
    ensures { result ≡ carried_of on earth i }
{
    Seq {
        s1: only_if(on, i.s1),
        s2: only_if(on, i.s2),
        s0: only_if(earth, i.s0),
    }
}
