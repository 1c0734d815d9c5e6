// Whether the nodes of a place are those of one formula.
ghost use Rattle.std.specs.Prelude.{◌≡◌, ◌^◌, ◌<◌, Decides};
ghost use Rattle.formula.specs.Wholes.{AlphaIn, NodeIn, SomeWhole, Meanings, ReadWhole};

use crate::{Alpha, Formula, Node};

impl Formula {
    // Each node takes one of the formulas that are due and makes its own parts due.
    pub fn is_whole(&self) -> bool
        ensures { Decides result (SomeWhole self.now) }
    {
        if self.node_count > 64 {
            return false;
        }
        let mut due: usize = 1;
        for node in &self.nodes[..self.node_count] {
            if due == 0 || !self.has_node(*node) {
                return false;
            }
            due = due - 1 + node.parts();
        }
        due == 0
    }

    // Whether a node speaks only of what the formula's numbers have.
    fn has_node(&self, node: Node) -> bool
        ensures { Decides result (NodeIn self.now.actions self.now.variables.count self.now.properties node) }
    {
        match node {
            Node::True | Node::Not | Node::Or | Node::And => true,
            Node::Property(p) => p < self.properties,
            Node::One(_, alpha) | Node::Two(_, alpha) => self.has_alpha(alpha),
        }
    }

    fn has_alpha(&self, alpha: Alpha) -> bool
        ensures { Decides result (AlphaIn self.now.actions self.now.variables.count alpha) }
    {
        match alpha {
            Alpha::Variable(y) => y < self.variables.count,
            Alpha::Written(set) => set > 0 && fits(set, self.actions),
        }
    }
}

// Whether a set has no action but so many.
fn fits(set: usize, actions: usize) -> bool
    ensures { Decides result (set < 2 ^ actions) }
{
    actions >= 64 || set >> actions == 0
}

// Every value of a place means one thing, which is computed.
pub fn every_value_has_one_meaning() -> u8
    ensures { Meanings }
{
    0
}

// What was read from a sheet is whole.
pub fn read_is_whole() -> u8
    ensures { ReadWhole }
{
    0
}
