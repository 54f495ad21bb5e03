//! Which entries fit, told by a part's turn.
#![tactic(auto)]

mod laws;

pub use laws::{communication_laws, deed_laws};
