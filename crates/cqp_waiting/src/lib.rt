//! Parts that wait at channels along runs of the machine.
#![tactic(auto)]

mod laws;

pub use laws::waiting_laws;
