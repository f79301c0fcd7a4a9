// What a board gets from its chain, as the crates above pass it to each other: one node for each board, in a table that is lent.
#![tactic(auto)]

ghost use Rattle.std.specs.Prelude.{◌≡◌};
ghost use Rattle.node.specs.Node.{no_node};

use paper::Ohms;

// What a board gets from its chain: sums, its feeder (0: none), the head of its part, where its zero sequence starts (0: nowhere, the part has no earth return), its turn.
// All are words of 16 bits: a flag would leave a gap in each node, and a table with gaps is not cleared in one go.
#[derive(Clone, Copy, PartialEq, Eq)]
pub struct Node {
    pub z1: Ohms,
    pub z2: Ohms,
    pub z0: Ohms,
    pub feeder: u16,
    pub head: u16,
    pub start: u16,
    pub turn: u16,
}

impl Node {
    // The node above record 1.
    pub const NONE: Node = Node {
        z1: Ohms::ZERO,
        z2: Ohms::ZERO,
        z0: Ohms::ZERO,
        feeder: 0,
        head: 0,
        start: 0,
        turn: 0,
    };

    pub fn none() -> Node
        ensures { result ≡ no_node }
    {
        Node::NONE
    }
}
