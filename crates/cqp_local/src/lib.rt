//! An event of the factored machine depends on the cells that it needs alone, and changes those
//! that it touches.
#![tactic(auto)]

mod laws;

pub use laws::local_laws;
