//! A run in one place: it keeps the parts by number, how they stand, and the groups of qubits, and
//! makes one entry after another.
#![tactic(auto)]

mod asking;
mod cells;
mod factors;
mod gathering;
mod laws;
mod meeting;
mod own;
mod readings;
mod slots;
mod stepper;
mod tables;
mod tries;
mod weighing;

pub use stepper::Stepper;
