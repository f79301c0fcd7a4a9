// The records, judged in file order: "5 to 11 are all tried on one record before the next.", and 21 with them.
#![tactic(auto)]

mod rules;
mod sums;

ghost use Rattle.std.specs.Prelude.{◌≡◌, ◌+◌, ◌*◌, ◌≤◌, length, []};
ghost use Rattle.std.proofs.Math.Option.{none};
ghost use Rattle.paper.specs.File.{head_of, records_of, boards_of};
ghost use Rattle.paper.specs.Refusal.{records_refusal, the_record};
ghost use Rattle.paper.specs.Rule.{number_of, or_refused};
ghost use Rattle.label.specs.Places.{places_of};
ghost use Rattle.node.specs.Node.{no_node};
ghost use Rattle.node.specs.Tables.{table, nodes_of};
ghost use Rattle.records.specs.Judging.{judgement};
ghost use Rattle.records.specs.Rules.{fed_by};

use crate::rules::Entry;
use file::bytes::board_of;
use file::field::u16_at;
use label::places::{Place, places_in};
use node::Node;
use paper::{Lent, Part, Refusal, Rule};

// The records judged: all kept, or the first that is refused; and either way the place of the board that is asked for (0: none, as the paper's `place_of` has it).
#[derive(Clone, Copy)]
pub struct Judged {
    pub asked: u16,
    pub outcome: Result<(), Refusal>,
}

// Record r, refused: its own bytes are shown.
// Tried: `Part::of_record`. Of 32 boards a call of `solve` then takes up to 1.21 times the yardstick's time, where 1.2 is the bar and this takes 1.12.
fn refused(r: usize, rule: Rule) -> Refusal
    requires { (1 ≤ r) × (r ≤ 256) }
    ensures { result ≡ record { part = the_record r; place = r; number = number_of rule } }
{
    let part = Part {
        whose: Lent::NetworkBytes,
        start: 8 + 44 * (r - 1),
        len: 44,
    };
    Refusal {
        part,
        place: r as u16,
        number: rule.number(),
    }
}

// The node of a record's feeder, off the table.
#[tactic(auto, unfolding(crate::specs::Rules::fed_by))]
fn fed_by(feeder: usize, nodes: &[Node; 256]) -> Node
    requires { feeder ≤ 256 }
    ensures { result ≡ fed_by feeder nodes.now }
{
    match feeder.checked_sub(1) {
        Some(i) => nodes[i],
        None => Node::NONE,
    }
}

// A record is decoded again where it is judged: to pass the table of boards would copy it.
fn judge_all(
    net: &[u8],
    n: usize,
    places: &[Place; 256],
    nodes: &mut [Node; 256],
) -> Result<(), Refusal>
    requires n_value { (n ≡ (head_of net.now).boards) × (n ≤ 256) × (length net.now ≡ 8 + 44 * n) }
    requires places_value { places.now ≡ places_of (boards_of net.now) }
    requires nodes_value { nodes.old ≡ table no_node [] }
    ensures value { result ≡ or_refused (records_refusal [] (records_of net.now)) tt }
    ensures nodes_after { records_refusal [] (records_of net.now) ≡ none → nodes.new ≡ table no_node (nodes_of (boards_of net.now)) }
{
    for i in 0..n {
        let r = i + 1;
        let a = 8 + 44 * i;
        let e = a + 44;
        let place = places[i];
        let entry = Entry {
            r,
            mark: u16_at(net, a),
            b: board_of(&net[a..e]),
            own: place.own as usize,
            fed: place.fed as usize,
        };
        let up = fed_by(entry.earlier(), nodes);
        match entry.step(up) {
            Ok(node) => nodes[i] = node,
            Err(rule) => return Err(refused(r, rule)),
        }
    }
    Ok(())
}

// n stays beside net, as in `label::places::places_in`. A table of nodes that say none is filled with those of all records. What it holds where a record is refused is nobody's.
pub fn judge(net: &[u8], n: usize, label: [u8; 12], nodes: &mut [Node; 256]) -> Judged
    requires n_value { (n ≡ (head_of net.now).boards) × (n ≤ 256) × (length net.now ≡ 8 + 44 * n) }
    requires nodes_value { nodes.old ≡ table no_node [] }
    ensures value { result ≡ judgement net.now label }
    ensures nodes_after { records_refusal [] (records_of net.now) ≡ none → nodes.new ≡ table no_node (nodes_of (boards_of net.now)) }
{
    let found = places_in(net, n, label);
    let outcome = judge_all(net, n, &found.places, nodes);
    Judged {
        asked: found.asked,
        outcome,
    }
}
