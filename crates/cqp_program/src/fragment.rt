//! The nodes of a process as they are read, in postorder: each stands behind its parts, and names
//! none of them by number.

use crate::program::{Occ, Occs, Params, TyTree};
use cqp_grammar::NameText;
use cqp_lists::List;
use cqp_syntax::Op;

/// A node that was read, and its offset.
#[derive(Debug, Drop)]
pub struct Fragment<'a> {
    pub kind: Kind<'a>,
    pub at: u32,
}

/// A node without the numbers of its parts.
#[derive(Debug, Drop)]
pub enum Kind<'a> {
    Nil,
    Par,
    New { name: Occ<'a>, ty: TyTree },
    Qbit { name: Occ<'a> },
    Act,
    In { chan: Occ<'a>, params: Params<'a> },
    /// `args` counts the arguments.
    Out { chan: Occ<'a>, args: usize },
    If,
    Num { v: u32 },
    Unit,
    Name { name: NameText<'a> },
    Gate { op: Op },
    Sig,
    Add,
    Apply { qubits: Occs<'a> },
    Measure { qubits: Occs<'a> },
    Call { name: NameText<'a>, args: Occs<'a> },
}

/// A list of fragments.
pub type Fragments<'a> = List<Fragment<'a>>;
