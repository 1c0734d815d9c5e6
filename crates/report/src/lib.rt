// A text in, the action list out: reports of formulas over models.
#![tactic(auto)]

ghost use Rattle.std.specs.Prelude.{◌≡◌};
ghost use Rattle.report.specs.Answers.{report_number};

pub use calls::{arcsyn_report, printed, report};

mod calls;
mod codes;
mod faults;
mod formulas;
pub mod laws;
mod lines;
mod printer;
mod sheets;
mod texts;

// The output is too short for the report.
#[derive(Clone, Copy, PartialEq, Eq, Debug)]
pub enum ReportFault {
    OutputTooShort,
}

impl ReportFault {
    pub fn number(self) -> usize
        ensures { result ≡ report_number self }
    {
        match self {
            ReportFault::OutputTooShort => 26,
        }
    }
}
