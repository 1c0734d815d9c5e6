// The shape of codes: so many actions for each of so many variables.
ghost use Rattle.std.specs.Prelude.{◌≡◌, ◌*◌, ◌^◌, ◌≤◌, Decides};
ghost use Rattle.logic.specs.Codes.{inhabited, valuation, Valuation};
ghost use Rattle.store.specs.Shapes.{shape_actions, shape_variables, Made};

use crate::fault::Fault;

// Every value is read into the limits. Ghost fields that state them were tried: then `Single::open` gets no proof, since it
// makes a `Result` over what holds a `&mut` and, in its shape, a ghost field.
#[derive(Clone, Copy, PartialEq, Eq, Debug)]
pub struct Shape {
    actions: usize,
    variables: usize,
}

impl Shape {
    pub fn new(actions: usize, variables: usize) -> Result<Shape, Fault>
        ensures { Made actions variables result }
    {
        if actions >= 1 && actions <= 12 && variables <= 4 && actions * variables <= 12 {
            Ok(Shape { actions, variables })
        } else {
            Err(Fault::NoShape)
        }
    }

    pub fn actions(self) -> usize
        ensures { result ≡ shape_actions self }
    {
        self.actions.min(12).max(1)
    }

    pub fn variables(self) -> usize
        ensures { result ≡ shape_variables self }
    {
        self.variables.min(4).min(12 / self.actions())
    }

    pub fn bits(self) -> usize
        ensures value { result ≡ shape_actions self * shape_variables self }
        ensures most { result ≤ 12 }
    {
        self.actions() * self.variables()
    }

    #[tactic(auto, using(crate::proofs::Valuations::codes_most))]
    pub fn codes(self) -> usize
        ensures value { result ≡ 2 ^ (shape_actions self * shape_variables self) }
        ensures most { result ≤ 4096 }
    {
        1 << self.bits()
    }

    pub fn is_valuation(self, c: usize) -> bool
        ensures value { result ≡ valuation (shape_actions self) (shape_variables self) c }
        ensures decides { Decides result (Valuation (shape_actions self) (shape_variables self) c) }
    {
        c < self.codes() && self.gives_each_an_action(c)
    }

    fn gives_each_an_action(self, c: usize) -> bool
        ensures { result ≡ inhabited (shape_actions self) (shape_variables self) c }
    {
        let actions = self.actions();
        let variables = self.variables();
        (0..variables).all(|y| (c >> (y * actions)) % (1 << actions) != 0)
    }
}
