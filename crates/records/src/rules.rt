// One record judged, by what stands in it and by what its feeder has: the first of 5 to 11 with 21 that it breaks, or its node.
ghost use Rattle.std.specs.Prelude.{◌≡◌, ◌≤◌, ◌<◌};
ghost use Rattle.paper.specs.Rule.{unless};
ghost use Rattle.node.specs.Node.{UpSmall};
ghost use Rattle.records.specs.Rules.{fed_wrong, broken, earlier, step_of};

use crate::sums::{Joined, node_over};
use file::field::BD;
use kind::clock::kind_wrong;
use kind::forgotten::z1_forgotten;
use kind::must_hold::impedance_wrong;
use label::formed::formed;
use label::is_spaces;
use node::Node;
use paper::{Board, Rule};

// Record r as it was read: its mark, its board, and where its label and its feeder's first stand among all boards (0: nowhere, as the paper's `place_of` has it).
#[derive(Clone, Copy)]
pub(crate) struct Entry {
    pub r: usize,
    pub mark: u16,
    pub b: Board,
    pub own: usize,
    pub fed: usize,
}

impl Entry {
    #[tactic(auto, unfolding(crate::specs::Rules::fed_wrong))]
    fn fed_wrong(self) -> bool
        ensures { result ≡ fed_wrong self.r self.b self.fed }
    {
        if self.r == 1 {
            return !is_spaces(self.b.feeder);
        }
        (self.fed == 0) | (self.r <= self.fed)
    }

    // 5 to 10, then 21.
    #[tactic(auto, unfolding(crate::specs::Rules::broken, crate::specs::Rules::number_of, paper::specs::Rule::unless, paper::specs::Rule::rule_of))]
    fn broken(self) -> Result<(), Rule>
        ensures { result ≡ unless (broken self.r self.mark self.b self.own self.fed) tt }
    {
        if self.mark != BD {
            return Err(Rule::BoardMark);
        }
        if !formed(self.b.label) {
            return Err(Rule::LabelForm);
        }
        if self.own != self.r {
            return Err(Rule::LabelUsed);
        }
        if self.fed_wrong() {
            return Err(Rule::Feeder);
        }
        if kind_wrong(self.r, self.b) {
            return Err(Rule::KindOrClock);
        }
        if impedance_wrong(self.b) {
            return Err(Rule::Impedance);
        }
        if z1_forgotten(self.b) {
            return Err(Rule::Forgotten);
        }
        Ok(())
    }

    // The feeder's place, where that is before the record; else 0, which the paper has for no feeder and a node says of one.
    #[tactic(auto, unfolding(crate::specs::Rules::earlier))]
    pub(crate) fn earlier(self) -> usize
        ensures { (result ≡ earlier self.r self.fed) × (result ≤ self.r) }
    {
        if self.fed < self.r { self.fed } else { 0 }
    }

    // 5 to 11 with 21, and the node where they are kept.
    pub(crate) fn step(self, up: Node) -> Result<Node, Rule>
        requires { (self.r ≤ 256) × UpSmall up }
        ensures { result ≡ step_of self.r self.mark self.b self.own self.fed up }
    {
        self.broken()?;
        let joined = Joined { b: self.b, up };
        let node = joined.node(self.r as u16, self.earlier() as u16);
        if node_over(node) {
            return Err(Rule::Sum);
        }
        Ok(node)
    }
}
