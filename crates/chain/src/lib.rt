// Which records lie on the faulted board's chain; in the modules what each board shares with it, and what each record carries to the fault.
#![tactic(auto)]

pub mod carried;
pub mod share;

ghost use Rattle.std.specs.Prelude.{◌≡◌, ◌≤◌};
ghost use Rattle.chain.specs.Marked.{FromEarlier, marks_of};

use node::Node;

// The records on the chain of board k, marked.
pub fn chain(nodes: &[Node; 256], k: usize) -> [bool; 256]
    requires { (k ≤ 256) × FromEarlier nodes.now }
    ensures { result ≡ marks_of nodes.now k }
{
    let mut on = [false; 256];
    // no index is counted: each feeder says where the next record is
    let mut at = k;
    while let Some(i) = at.checked_sub(1) {
        on[i] = true;
        at = usize::from(nodes[i].feeder);
    }
    on
}
