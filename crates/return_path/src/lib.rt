// The entry point for crews: the record that a board's earth return comes from, or the one that stops it.
#![tactic(auto)]

ghost use Rattle.std.specs.Prelude.{◌≡◌, Ok};
ghost use Rattle.paper.specs.Return.{said, earth_said};
ghost use Rattle.return_path.specs.Return.{said_by};

use file::field::label_in;
use network::read;
use node::Node;
use paper::{EarthReturn, Lent, Refusal, Rule};

// The bytes of a label.
const LABEL: usize = 12;

// A board's node says the head of its part, and whether zero sequence starts there: no chain is walked again.
fn of_node(node: Node) -> EarthReturn
    ensures { said (Ok result) ≡ said_by node }
{
    if node.start == 0 {
        return EarthReturn::Stopped(node.head);
    }
    EarthReturn::From(node.start)
}

// Any bytes, any label. A label that is not of twelve bytes is no board's.
pub fn earth(net: &[u8], label: &[u8]) -> Result<EarthReturn, Refusal>
    ensures { said result ≡ earth_said net.now label.now }
{
    let mut nodes = [Node::NONE; 256];
    let wanted = label_in(label, LABEL, 0);
    let network = read(net, wanted, &mut nodes)?;
    let len = label.len();
    match usize::from(network.k).checked_sub(1) {
        Some(i) if len == LABEL => Ok(of_node(nodes[i])),
        // 14, with all bytes of the label, however many.
        _ => Err(Refusal::at_the_front(Rule::UnknownBoard, Lent::LabelBytes, len)),
    }
}
