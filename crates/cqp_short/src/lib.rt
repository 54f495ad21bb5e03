//! Runs of the machine are short, and their counts are small.
#![tactic(auto)]

mod laws;

pub use laws::short_laws;
