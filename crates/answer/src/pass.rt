// One pass over the boards, in file order.
ghost use Rattle.std.specs.Prelude.{◌≡◌, ◌==◌, if◌then◌else◌, ◌+◌, ◌-◌, ◌*◌, ◌≤◌, length, slice_index_or};
ghost use Rattle.lemmas.specs.Over.{over};
ghost use Rattle.paper.specs.Phase.{Asked};
ghost use Rattle.paper.specs.Answer.{of_boards};
ghost use Rattle.node.specs.Node.{no_node};
ghost use Rattle.chain.specs.Share.{no_share, shared_in};
ghost use Rattle.answer.specs.Passing.{Passing};

use board::board;
use board::front::Faulted;
use chain::share::{Shared, share};
use node::Node;

// What the board at a place shares, once the pass has been there; at place 0, where no board is, nothing.
fn shared_at(nodes: &[Node; 256], place: u16) -> Shared
    requires { place ≤ 256 }
    ensures { result ≡ (if place == 0 then no_share else shared_in (slice_index_or nodes.now (place - 1) no_node)) }
{
    match place.checked_sub(1) {
        Some(i) => Shared::from(nodes[usize::from(i)]),
        None => Shared::none(),
    }
}

// What a board shares comes from what its feeder shares, and takes the place of its sums in its node; its 24 numbers go through its own part of the buffer.
pub(crate) fn boards(
    nodes: &mut [Node; 256],
    n: usize,
    on: &[bool; 256],
    f: Faulted,
    out: &mut [i64],
)
    requires { (q : Asked) × Passing q nodes.old n on.now f × (13 + 24 * n ≤ length out.old) }
    ensures { (q : Asked) → Passing q nodes.old n on.now f → out.new ≡ over 13 (of_boards q 1 n) out.old }
{
    for j in 0..n {
        let node = nodes[j];
        let here = on[j];
        let s = share(here, node, f.head, shared_at(nodes, node.feeder));
        let passed = s.put_in(node);
        nodes[j] = passed;
        let a = 13 + 24 * j;
        board(&mut out[a..a + 24], f, here, node, s);
    }
}
