// The nodes that have been read, one behind the other.
ghost use Rattle.std.specs.Prelude.{◌≡◌, ◌<◌, ◌≤◌, [], ◌∷◌, ◌++◌, length};
ghost use Rattle.model.specs.Values.{padded};
ghost use Rattle.formula.specs.declared.Node.TheVariants.{True};

use crate::Node;
use std::marker::Model;

// Cells behind the nodes in use are blank. An array and their number, since no heap stands below the program.
#[derive(Drop)]
pub(crate) struct Arena {
    nodes: [Node; 64],
    used: usize,
}

impl Model for Arena {
    ghost use Rattle.std.specs.Prelude.{◌≤◌, ◌≡◌, List, take};
    ghost use Rattle.model.specs.Values.{padded};
    ghost use Rattle.formula.specs.declared.Node.{Node};
    ghost use Rattle.formula.specs.declared.Node.TheVariants.{True};

    ghost Value = { List Node };

    ghost view = { λ a. take a.used a.nodes };

    ghost invariant = { λ a. (a.used ≤ 64) × (a.nodes ≡ padded 64 True (take a.used a.nodes)) };
}

impl Arena {
    pub(crate) fn new() -> Arena
        ensures { result ≡ [] }
    {
        Arena {
            nodes: [Node::True; 64],
            used: 0,
        }
    }

    pub(crate) fn used(&self) -> usize
        ensures value { result ≡ length self.now }
        ensures range { result ≤ 64 }
    {
        self.used
    }

    // Puts a node behind the others.
    pub(crate) fn push(&mut self, node: Node)
        requires { length self.old < 64 }
        ensures { self.new ≡ self.old ++ node ∷ [] }
    {
        self.nodes[self.used] = node;
        self.used += 1;
    }

    pub(crate) fn cells(&self) -> [Node; 64]
        ensures { result ≡ padded 64 True self.now }
    {
        self.nodes
    }
}
