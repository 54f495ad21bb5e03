//! Definitions and scope: from a program to the process that it stands for.
#![tactic(auto)]

mod binders;
mod body;
mod calls;
mod copy;
mod def_names;
mod end;
mod fault;
mod known;
mod laws;
mod locals;
mod members;
mod nest;
mod nodes;
mod outline;
mod program;
mod renumbering;
mod scan;
mod scope;
mod sizes;
mod spread;
mod type_list;
mod types;

pub use cqp_outside::NoMemory;
pub use end::ExpandEnd;
pub use fault::{FaultKind, ScopeFault};
pub use laws::{one_expansion, one_least_fault};
pub use program::expand;
