// What a board gets from its chain: a record's node from its feeder's; and no part of a sum over 4,095 (11).
ghost use Rattle.std.specs.Prelude.{cond, ◌≡◌, eqb};
ghost use Rattle.paper.specs.Kind.{ohms, ◌+Ω◌, kind_of, zero_term};
ghost use Rattle.paper.specs.Bounds.{AtMost};
ghost use Rattle.node.specs.Node.{with_zero, node_from, node_over, OwnSmall, UpSmall};

use kind::impedance::over;
use kind::zero::{ZeroWord, zero_term, zero_word};
use node::Node;
use paper::{Board, Ohms};

// z0 + 3zn of one record is at most 16,380.
#[tactic(auto, unfolding(paper::specs::Kind::kind_open))]
fn plus(a: Ohms, b: Ohms) -> Ohms
    requires { AtMost 16380 a × AtMost 4095 b }
    ensures { result ≡ a +Ω b }
{
    Ohms {
        r: a.r + b.r,
        x: a.x + b.x,
    }
}

// A record that keeps 5 to 10, and its feeder's node: so small that no sum of the two passes its word.
#[derive(Clone, Copy)]
pub(crate) struct Joined {
    pub b: Board,
    pub up: Node,
    ghost own_small: { OwnSmall b },
    ghost up_small: { UpSmall up },
}

impl Joined {
    // The sum of a record that goes on: its feeder's and a term more, if there is an earth return.
    fn gone_on(self) -> Ohms
        ensures { result ≡ cond (eqb self.up.start 0) (ohms 0 0) (zero_term (kind_of self.b.kind).zero_seq self.b +Ω self.up.z0) }
    {
        if self.up.start == 0 {
            return Ohms::ZERO;
        }
        plus(zero_term(self.b), self.up.z0)
    }

    // A node without zero sequence, with that of record r: it heads a part, with an earth return or without, or lies in its feeder's.
    fn with_zero(self, n: Node, r: u16) -> Node
        ensures { result ≡ with_zero n self.b r (kind_of self.b.kind).zero_seq self.up }
    {
        match zero_word(self.b.kind) {
            ZeroWord::Starts => Node {
                z0: zero_term(self.b),
                head: r,
                start: r,
                ..n
            },
            ZeroWord::GoesOn => Node {
                z0: self.gone_on(),
                head: self.up.head,
                start: self.up.start,
                ..n
            },
            ZeroWord::Blocked => Node {
                z0: Ohms::ZERO,
                head: r,
                start: 0,
                ..n
            },
        }
    }

    // The node of record r.
    #[tactic(auto, unfolding(node::specs::Node::node_from))]
    pub(crate) fn node(self, r: u16, feeder: u16) -> Node
        ensures { result ≡ node_from r self.b feeder self.up }
    {
        let n = Node {
            z1: plus(self.b.z1, self.up.z1),
            z2: plus(self.b.z2, self.up.z2),
            feeder,
            turn: self.b.clock as u16 + self.up.turn,
            ..Node::NONE
        };
        self.with_zero(n, r)
    }
}

// 11
#[tactic(auto, unfolding(node::specs::Node::node_over))]
pub(crate) fn node_over(n: Node) -> bool
    ensures { result ≡ node_over n }
{
    over(4095, n.z1) | over(4095, n.z2) | over(4095, n.z0)
}
