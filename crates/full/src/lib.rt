// The full store: one bit for each code of each set, in the caller's bytes.
#![tactic(auto)]

pub mod full;
mod laying;
mod layout;
mod masking;
mod scan;
mod sets;
mod spans;
mod universe;
