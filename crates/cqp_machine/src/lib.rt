//! The factored machine: parts with bindings, channels with the parts that wait at them, and groups
//! of qubits with their own numerators.
#![tactic(auto)]

mod cell;
mod event;
mod examples;
mod front;
mod key;

pub use cell::Cell;
pub use event::Event;
pub use front::{Front, Stop};
pub use key::{chan_key, group_key, part_key};
