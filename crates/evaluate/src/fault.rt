// Why an evaluation is refused.
ghost use Rattle.std.specs.Prelude.{◌≡◌};
ghost use Rattle.evaluate.specs.Faults.{evaluation_number};

use store::fault::Fault;

// No store answers a call of an evaluation by a fault, so that `Store` is never answered.
#[derive(Clone, Copy, PartialEq, Eq, Debug)]
pub enum EvaluateFault {
    Differ,
    TooFewSets,
    Store(Fault),
}

impl From<Fault> for EvaluateFault {
    fn from(fault: Fault) -> EvaluateFault {
        EvaluateFault::Store(fault)
    }
}

impl EvaluateFault {
    pub fn number(self) -> u8
        ensures { result ≡ evaluation_number self }
    {
        match self {
            EvaluateFault::Differ => 20,
            EvaluateFault::TooFewSets => 21,
            EvaluateFault::Store(fault) => fault.number(),
        }
    }
}
