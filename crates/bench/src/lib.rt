// The bench: a model and a store of sets, six calls, and the ledger that says every answer.
#![tactic(auto)]

pub mod answers;
pub mod bench;
pub mod call;
pub mod fault;
pub mod laws;
