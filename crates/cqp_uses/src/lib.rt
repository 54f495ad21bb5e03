//! Where the names of a process are used.
#![tactic(auto)]

mod end;
mod uses;

pub use uses::Uses;
