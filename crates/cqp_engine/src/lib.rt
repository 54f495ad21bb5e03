//! The contract of a run in one place, and the loops of the run on one thread and of replay over
//! any engine that meets it.
#![tactic(auto)]

mod engine;
mod laws;
mod plain;
mod replaying;

pub use engine::{Engine, Fit, Upcoming};
pub use laws::{end_laws, replay_laws, step_laws, upcoming_laws};
pub use plain::{Ended, plain_run};
pub use replaying::{ReplayEnd, Replayed, replay};
