// Why a sheet is refused.
ghost use Rattle.std.specs.Prelude.{◌≡◌};
ghost use Rattle.report.specs.declared.faults.SheetFault.TheVariants.{Reading, Evaluation};

use evaluate::fault::EvaluateFault;
use words::Fault;

// It is not read, or its formula is not evaluated.
#[derive(Clone, Copy)]
pub enum SheetFault {
    Reading(Fault),
    Evaluation(EvaluateFault),
}

impl From<Fault> for SheetFault {
    ghost from_gives = { λ fault e. e ≡ Reading fault };

    fn from(fault: Fault) -> SheetFault {
        SheetFault::Reading(fault)
    }
}

impl From<EvaluateFault> for SheetFault {
    ghost from_gives = { λ fault e. e ≡ Evaluation fault };

    fn from(fault: EvaluateFault) -> SheetFault {
        SheetFault::Evaluation(fault)
    }
}
