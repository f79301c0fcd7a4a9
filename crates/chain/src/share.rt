// The impedances that each board shares with the faulted one.
ghost use Rattle.std.specs.Prelude.{◌≡◌};
ghost use Rattle.chain.specs.Share.{no_share, share_from, shared_in, with_share};

use node::Node;
use paper::Ohms;

// The impedances that a board shares with the faulted one. A triple as `paper::Seq` is of numbers; one generic type for both would rename the paper's z1, z2, z0, and no function is common to them.
#[derive(Clone, Copy)]
pub struct Shared {
    pub z1: Ohms,
    pub z2: Ohms,
    pub z0: Ohms,
}

impl Shared {
    // What no board shares.
    pub fn none() -> Shared
        ensures { result ≡ no_share }
    {
        Shared {
            z1: Ohms::ZERO,
            z2: Ohms::ZERO,
            z0: Ohms::ZERO,
        }
    }

    // A node with what its board shares in place of its sums: nobody needs those any more, and the shares want no table of their own.
    pub fn put_in(self, node: Node) -> Node
        ensures { result ≡ with_share node self }
    {
        Node {
            z1: self.z1,
            z2: self.z2,
            z0: self.z0,
            ..node
        }
    }
}

// Off a node: a board's own sums, or what it shares, once the pass has put that there.
impl From<Node> for Shared {
    ghost from_gives = { λ n s. s ≡ shared_in n };

    fn from(node: Node) -> Shared {
        Shared {
            z1: node.z1,
            z2: node.z2,
            z0: node.z0,
        }
    }
}

// What a record shares, from what its feeder shares: all of its own sums on the chain, else the feeder's; no zero sequence where the two boards' parts have other heads.
pub fn share(on: bool, node: Node, head: u16, up: Shared) -> Shared
    ensures { result ≡ share_from on node head up }
{
    let sums = if on { Shared::from(node) } else { up };
    let z0 = if node.head == head {
        sums.z0
    } else {
        Ohms::ZERO
    };
    Shared { z0, ..sums }
}
