// Formulas: a flat arena of nodes, and the reader of formula sheets.
#![tactic(auto)]

ghost use Rattle.std.specs.Prelude.{◌≡◌, [], take, slice_index_or};
ghost use Rattle.words.specs.Words.{listed};
ghost use Rattle.formula.specs.Nodes.{arity};

pub use reader::read_formula;
use words::{Name, NameList};

mod arena;
mod braces;
mod heads;
mod nodes;
mod parts;
pub mod reader;
mod variables;
pub mod whole;

// The temporal words with one part.
#[derive(Clone, Copy, Debug, PartialEq)]
pub enum OnePart {
    Ex,
    Eg,
    Ef,
    Ax,
    Ag,
    Af,
    Exw,
    Egw,
    Efw,
    Axw,
    Agw,
    Afw,
}

// The temporal words with two parts.
#[derive(Clone, Copy, Debug, PartialEq)]
pub enum TwoParts {
    Eu,
    Au,
    Euw,
    Auw,
}

// What a temporal word speaks over: a variable by its number, or a set of actions written out, by its code.
#[derive(Clone, Copy, Debug, PartialEq)]
pub enum Alpha {
    Variable(usize),
    Written(usize),
}

// A first part starts right behind its node, a second part where the first ended.
#[derive(Clone, Copy, Debug, PartialEq)]
pub enum Node {
    True,
    Property(usize),
    Not,
    Or,
    And,
    One(OnePart, Alpha),
    Two(TwoParts, Alpha),
}

impl Node {
    // How many parts it has.
    pub fn parts(self) -> usize
        ensures { result ≡ arity self }
    {
        match self {
            Node::True | Node::Property(_) => 0,
            Node::Not | Node::One(_, _) => 1,
            Node::Or | Node::And | Node::Two(_, _) => 2,
        }
    }
}

// The nodes of a formula in prefix order, the numbers of actions and properties that it was read against, and its variables.
// Cells behind the counts are blank; they stand beside their arrays, since no heap stands below the program.
#[derive(Clone, Copy)]
pub struct Formula {
    nodes: [Node; 64],
    node_count: usize,
    actions: usize,
    properties: usize,
    variables: NameList<4>,
}

impl Formula {
    // The place that was never read into. Written out, since the value of a constant names no constant of a generic type.
    pub const BLANK: Formula = Formula {
        nodes: [Node::True; 64],
        node_count: 0,
        actions: 0,
        properties: 0,
        variables: NameList {
            names: [Name::BLANK; 4],
            count: 0,
        },
    };

    // The node at an index; behind the arena `true`.
    pub fn node(&self, i: usize) -> Node
        ensures { result ≡ slice_index_or self.now.nodes i Node.True }
    {
        self.nodes.get(i).copied().unwrap_or(Node::True)
    }

    pub fn node_count(&self) -> usize
        ensures { result ≡ self.now.node_count }
    {
        self.node_count
    }

    pub fn actions(&self) -> usize
        ensures { result ≡ self.now.actions }
    {
        self.actions
    }

    pub fn variables(&self) -> usize
        ensures { result ≡ self.now.variables.count }
    {
        self.variables.count
    }

    pub fn properties(&self) -> usize
        ensures { result ≡ self.now.properties }
    {
        self.properties
    }

    // The names of the variables.
    pub fn variable_names(&self) -> &[Name]
        ensures { result.now ≡ take self.now.variables.count self.now.variables.names }
    {
        self.variables.as_slice()
    }

    // The bytes of a variable's name; none where there is no such variable.
    pub fn variable_name(&self, variable: usize) -> &[u8]
        ensures { result.now ≡ slice_index_or (listed self.now.variables) variable [] }
    {
        self.variables.name(variable)
    }
}
