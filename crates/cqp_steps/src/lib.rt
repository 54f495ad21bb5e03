//! A step of the machine is the reduction that it shows, on its parts, and what is left of the
//! process falls along steps.
#![tactic(auto)]

mod laws;

pub use laws::making_laws;
