//! The redexes of a process's prefixes, in evaluation order.
#![tactic(auto)]

mod redexes;
mod trail;

pub use redexes::Redexes;
