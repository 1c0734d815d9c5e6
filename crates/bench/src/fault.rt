// Why a call of a bench is refused.
ghost use Rattle.std.specs.Prelude.{◌≡◌, Some};
ghost use Rattle.bench.specs.Faults.{fault_number, fault_text, refusal_of};

use evaluate::fault::EvaluateFault;
use std::fmt;

#[derive(Clone, Copy, PartialEq, Eq, Debug)]
pub enum Fault {
    Differ,
    TooFewSets,
    NothingJudged,
    NoSuchState,
    NotInUniverse,
    PlaceTooHigh,
}

impl Fault {
    pub fn number(self) -> u8
        ensures { result ≡ fault_number self }
    {
        match self {
            Fault::Differ => 20,
            Fault::TooFewSets => 21,
            Fault::NothingJudged => 22,
            Fault::NoSuchState => 23,
            Fault::NotInUniverse => 24,
            Fault::PlaceTooHigh => 25,
        }
    }
}

// What a refused evaluation comes to.
impl From<EvaluateFault> for Fault {
    ghost from_gives = { λ fault told. told ≡ refusal_of fault };

    fn from(fault: EvaluateFault) -> Fault {
        match fault {
            EvaluateFault::Differ => Fault::Differ,
            EvaluateFault::TooFewSets => Fault::TooFewSets,
            EvaluateFault::Store(_) => Fault::TooFewSets,
        }
    }
}

impl fmt::Display for Fault {
    ghost output = { λ fault. Some (fault_text fault) };

    fn fmt<W: fmt::Write>(&self, f: &mut fmt::Formatter<W>) -> fmt::Result {
        write!(f, "refused {}", self.number())
    }
}
