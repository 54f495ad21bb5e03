//! Where a part has a turn, and that its process moves by it.
#![tactic(auto)]

mod laws;

pub use laws::turn_laws;
