//! Types: which processes share no qubit, and what is wrong with the others.
#![tactic(auto)]

mod checking;
mod faults;
mod forms;
mod kind;
mod laws;
mod lists;
mod marks;
mod rows;
mod sending;
mod splits;
mod typed;
mod uses;

pub use checking::{TypeEnd, check};
pub use kind::Kind;
pub use laws::{derivation_laws, free_slot_laws, strengthening_laws, value_laws, weakening_laws};
pub use typed::Typed;
