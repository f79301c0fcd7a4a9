// The record that an answer speaks of, shown in the bytes that it came in.
ghost use Rattle.verdict.specs.Shown.{lent, Within, IsPart};

use paper::{Lent, Part};

// "handed back as a part of the bytes it came in, network or fault": what is asked of the network is a fault, or a label.
pub fn shown<'a>(net: &'a [u8], asked: &'a [u8], part: Part) -> &'a [u8]
    requires { Within part net.now asked.now }
    ensures { IsPart (lent part.whose net.entry asked.entry) part.start part.len result }
{
    let end = part.start + part.len;
    match part.whose {
        Lent::NetworkBytes => &net[part.start..end],
        Lent::FaultBytes => &asked[part.start..end],
        Lent::LabelBytes => &asked[part.start..end],
    }
}
