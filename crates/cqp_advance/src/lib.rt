//! The factored machine as a book's machine: how its front moves on.
#![tactic(auto)]

mod machine;

pub use machine::Cells;
