//! How parts stand, told from their processes, and which of them meet.
#![tactic(auto)]

mod laws;

pub use laws::{least_laws, stand_laws};
