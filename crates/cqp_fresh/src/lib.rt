//! What an event of the factored machine makes is new, so the machine meets the laws of the book.
#![tactic(auto)]

mod laws;

pub use laws::machine_laws;
