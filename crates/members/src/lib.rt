// Questions over one set of any store: how many members, the one with the fewest ones, those that include no other.
#![tactic(auto)]

pub mod count;
pub mod inclusion;
pub mod laws;
pub mod minimal;
pub mod order;
pub mod smallest;
pub mod walk;
