// Sets of codes, kept for a caller who brings the memory: the calls of every store, and two of its makes.
#![tactic(auto)]

pub mod calls;
pub mod fault;
pub mod fixed;
pub mod laws;
pub mod shape;
pub mod single;
