//! A split of a group changes nothing of the whole state.
#![tactic(auto)]

mod laws;

pub use laws::split_state_laws;
