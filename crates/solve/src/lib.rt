// The entry point: a network and a fault, answered in the caller's buffer, or refused by the first rule that they break.
#![tactic(auto)]

mod answering;

ghost use Rattle.std.specs.Prelude.{◌≡◌, length};
ghost use Rattle.paper.specs.Answer.{verdict, written};

use answering::answered;
use paper::Answer;
use verdict::refused;

pub fn solve(net: &[u8], flt: &[u8], buffer: &mut [i64]) -> Answer
    ensures value { result ≡ verdict net.now flt.now (length buffer.old) }
    ensures buffer_after { buffer.new ≡ written net.now flt.now buffer.old }
{
    match answered(net, flt, buffer) {
        Ok(found) => found,
        Err(why) => refused(why),
    }
}
