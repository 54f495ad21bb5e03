//! Definitions with their names resolved: nodes whose names are numbers in the definition itself,
//! and calls whose definitions are known.

use cqp_syntax::{Names, Node};

/// A node of a definition's body.
#[derive(Drop)]
pub(crate) enum Member {
    /// A node of the process. Its names are numbers in the definition: its parameters from 0, then
    /// its binders in preorder.
    Own { node: Node },
    /// A call of the definition with this index.
    Call { def: usize, args: Names },
}

/// The body of a definition, or the main process.
#[derive(Drop)]
pub(crate) struct Outline {
    /// The nodes in preorder, number 0 the root.
    pub(crate) members: Vec<Member>,
    /// The offset of each.
    pub(crate) at: Vec<u32>,
    /// How many nodes stand before each, and behind the last, once calls are expanded. It is empty
    /// where `count` is too much.
    pub(crate) starts: Vec<u32>,
    /// The number of the type of each of its names.
    pub(crate) ty_of: Vec<u32>,
    /// How many of its names are parameters.
    pub(crate) arity: usize,
    /// What it counts as once calls are expanded, at most 20,001.
    pub(crate) count: u32,
}
