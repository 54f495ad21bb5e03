//! Programs before their definitions are expanded, as lists of nodes.
#![tactic(auto)]

mod fragment;
mod program;
mod tree;

pub use cqp_lists::NoMemory;
pub use fragment::{Fragment, Fragments, Kind};
pub use program::{Def, Defs, Occ, Occs, Param, Params, Program, TyTree};
pub use tree::{Tree, TreeNode, TreeNodes};
