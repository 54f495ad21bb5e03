//! The programs that `gen` makes from a number.
#![tactic(auto)]

mod program;

pub use program::program_text;
