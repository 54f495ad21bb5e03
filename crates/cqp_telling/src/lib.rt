//! What the front and the cells of a run tell of the configuration that they stand for.
#![tactic(auto)]

mod laws;

pub use laws::{odds_laws, run_laws};
