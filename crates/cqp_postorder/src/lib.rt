//! The nodes of a process in postorder, as a text gives them, and the lists of the process.
#![tactic(auto)]

mod lists;
mod nodes;
mod numbers;
mod placing;
mod sizes;

pub use cqp_lists::NoMemory;
pub use lists::tree_lists;
