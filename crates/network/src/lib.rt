// A network, read: accepted, with what each board gets from its chain in the table that is lent and with where the board stands that is asked for, or refused by the first rule that its bytes break.
#![tactic(auto)]

ghost use Rattle.std.specs.Prelude.{◌≡◌, []};
ghost use Rattle.std.proofs.Math.Option.{none};
ghost use Rattle.paper.specs.File.{head_of, boards_of};
ghost use Rattle.paper.specs.Rows.{first};
ghost use Rattle.paper.specs.Refusal.{head_rows, network_refusal};
ghost use Rattle.paper.specs.Rule.{or_refused};
ghost use Rattle.node.specs.Node.{no_node};
ghost use Rattle.node.specs.Tables.{table, nodes_of};
ghost use Rattle.network.specs.Network.{network_of};

use file::bytes::head_of;
use file::field::{HD, u16_at};
use file::head::head_wrong;
use node::Node;
use paper::{Head, Lent, Refusal, Rule};
use records::judge;

// An accepted network: its head, and the place of the board that is asked for, from 1; none: 0, as the paper's `place_of` has it. The boards themselves stay where they are looked up, and the nodes in the caller's table.
#[derive(Clone, Copy)]
pub struct Network {
    pub head: Head,
    pub k: u16,
}

// 1 to 4: what is too short is shown whole, of others the head.
#[tactic(auto, unfolding(paper::specs::Refusal::head_rows, paper::specs::Rows::first, paper::specs::Rule::or_refused))]
fn read_head(net: &[u8]) -> Result<Head, Refusal>
    ensures { result ≡ or_refused (first (head_rows net.now)) (head_of net.now) }
{
    if net.len() < 8 {
        return Err(Refusal::at_the_front(Rule::ShortNetwork, Lent::NetworkBytes, net.len()));
    }
    if u16_at(net, 0) != HD {
        return Err(Refusal::at_the_front(Rule::HeadMark, Lent::NetworkBytes, 8));
    }
    let head = head_of(net);
    if head_wrong(head) {
        return Err(Refusal::at_the_front(Rule::HeadValues, Lent::NetworkBytes, 8));
    }
    if net.len() != 8 + 44 * head.boards as usize {
        return Err(Refusal::at_the_front(Rule::NetworkLength, Lent::NetworkBytes, 8));
    }
    Ok(head)
}

// The network, and the first of its boards that has the label. A table of nodes that say none is filled with the network's; what it holds after a refusal is nobody's.
pub fn read(net: &[u8], label: [u8; 12], nodes: &mut [Node; 256]) -> Result<Network, Refusal>
    requires { nodes.old ≡ table no_node [] }
    ensures value { result ≡ network_of net.now label }
    ensures nodes_after { network_refusal net.now ≡ none → nodes.new ≡ table no_node (nodes_of (boards_of net.now)) }
{
    let head = read_head(net)?;
    let judged = judge(net, head.boards as usize, label, nodes);
    judged.outcome?;
    Ok(Network {
        head,
        k: judged.asked,
    })
}
