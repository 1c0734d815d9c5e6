// Lists of calls on a bench, and the law over them.
#![tactic(auto)]

pub mod audits;
pub mod runs;
