//! The events by which a run in one place makes an entry, and that they are enabled.
#![tactic(auto)]

mod laws;

pub use laws::{event_laws, settled_laws};
