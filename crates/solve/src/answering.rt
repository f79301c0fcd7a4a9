// A call as two steps that may each refuse: the network is read, the fault is asked; then the answer is written.
ghost use Rattle.std.specs.Prelude.{◌≡◌, length};
ghost use Rattle.paper.specs.Answer.{verdict, written};
ghost use Rattle.solve.specs.Told.{told};

use answer::answer;
use ask::ask;
use file::field::{FAULT, FAULT_LABEL, label_in};
use network::read;
use node::Node;
use paper::{Answer, Refusal};
use verdict::accepted;

// The call keeps one table, the nodes that it lends: reading fills them, answering works in them. The label is looked for while the network is read, so that no table of boards is handed on.
// Nothing is written until both are accepted: the first look at the buffer is for its length. Three slices and no type for them: they are what C lends (`ranjupeli_solve`).
pub(crate) fn answered(net: &[u8], flt: &[u8], buffer: &mut [i64]) -> Result<Answer, Refusal>
    ensures value { told result ≡ verdict net.now flt.now (length buffer.old) }
    ensures buffer_after { buffer.new ≡ written net.now flt.now buffer.old }
{
    let mut nodes = [Node::NONE; 256];
    let label = label_in(flt, FAULT, FAULT_LABEL);
    let network = read(net, label, &mut nodes)?;
    let head = network.head;
    let n = head.boards;
    let question = ask(flt, network.k, usize::from(n), buffer.len())?;
    let k = question.k;
    let amps = answer(head, &mut nodes, question.fault, usize::from(k), buffer);
    Ok(accepted(amps, k, n))
}
