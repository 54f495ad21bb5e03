//! The process of a program text as lists.

use crate::program::{Occ, Occs, Params, TyTree};
use cqp_grammar::NameText;
use cqp_lists::List;
use cqp_syntax::{Names, Op};

/// The nodes of a process in preorder, number 0 the root, and the offset of each.
#[derive(Debug, Drop)]
pub struct Tree<'a> {
    pub nodes: TreeNodes<'a>,
    pub at: Names,
}

/// A node of a process or an expression. `left`, `right`, `body`, `expr`, `args` of an output,
/// `yes`, `no`, `of` and the `op` of an application hold numbers of nodes.
#[derive(Debug, Drop)]
pub enum TreeNode<'a> {
    Nil,
    Par {
        left: u32,
        right: u32,
    },
    New {
        name: Occ<'a>,
        ty: TyTree,
        body: u32,
    },
    Qbit {
        name: Occ<'a>,
        body: u32,
    },
    Act {
        expr: u32,
        body: u32,
    },
    In {
        chan: Occ<'a>,
        params: Params<'a>,
        body: u32,
    },
    Out {
        chan: Occ<'a>,
        args: Names,
        body: u32,
    },
    If {
        left: u32,
        right: u32,
        yes: u32,
        no: u32,
    },
    Num {
        v: u32,
    },
    Unit,
    Name {
        name: NameText<'a>,
    },
    Gate {
        op: Op,
    },
    Sig {
        of: u32,
    },
    Add {
        left: u32,
        right: u32,
    },
    Apply {
        qubits: Occs<'a>,
        op: u32,
    },
    Measure {
        qubits: Occs<'a>,
    },
    Call {
        name: NameText<'a>,
        args: Occs<'a>,
    },
}

/// A list of nodes.
pub type TreeNodes<'a> = List<TreeNode<'a>>;
