//! A journal of a machine's events, whose cells are handed out as holds.
#![tactic(auto)]

mod book;
mod events;
mod hold;
mod machine;
mod rule;
mod steps;
mod view;

pub use book::{Book, BookRefused, Deal, NoMemory};
pub use events::Events;
pub use hold::Hold;
pub use machine::Machine;
