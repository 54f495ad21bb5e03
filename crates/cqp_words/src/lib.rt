//! The words of a command line.
#![tactic(auto)]

mod choice;
mod given;
mod known;
mod matched;
mod number;
mod once;
mod options;
mod request;
mod rules;
mod script;
mod words;

pub use choice::Choice;
pub use given::WordsEnd;
pub use once::asks_once;
pub use request::Request;
pub use rules::Watched;
use std::alloc::AllocError;
pub use words::read_words;

/// Want of memory.
pub type NoMemory = AllocError;
