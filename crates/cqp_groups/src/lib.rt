//! The groups of a run in one place, by number, as the factored machine's cells say them.
#![tactic(auto)]

mod group;
mod groups;
mod laws;
mod outcome;
mod places;
mod prepared;
mod readings;

pub use group::{Group, PairRefused};
pub use groups::Groups;
pub use laws::{call_laws, run_laws, sum_laws};
pub use places::Places;
