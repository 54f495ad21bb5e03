//! The one list type of the project. Contracts see a `List` as the list of its items.
#![tactic(auto)]

mod list;
mod short;

pub use list::List;
pub use short::ShortList;
use std::alloc::AllocError;

/// Want of memory.
pub type NoMemory = AllocError;
