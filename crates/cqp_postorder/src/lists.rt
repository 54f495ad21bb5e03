//! From the fragments of a process to its lists.

ghost use Rattle.std.specs.Prelude.{◌≡◌, ◌<◌, ◌^◌, length, IfOk};
ghost use Rattle.cqp_grammar.specs.Trees.{ProcessTree};
ghost use Rattle.cqp_program.specs.Listing.{tree_lists};
ghost use Rattle.cqp_program.specs.Postorder.{postorder};

use crate::NoMemory;
use crate::placing::Placing;
use cqp_program::{Fragment, Tree};
use std::alloc::Global;

/// The lists of the process with these fragments. The time grows with their number.
pub fn tree_lists<'a>(alloc: Global, mut fragments: Vec<Fragment<'a>>) -> Result<Tree<'a>, NoMemory>
    requires one { (p : ProcessTree) × (fragments.items ≡ postorder p) }
    requires few { length fragments.items < 2 ^ 31 }
    ensures ok { (p : ProcessTree) → fragments.entry.items ≡ postorder p → IfOk result (λ t. t
        ≡ tree_lists p) }
{
    let mut placing = Placing::new(alloc, fragments.as_slice())?;
    while let Some(fragment) = fragments.pop() {
        placing.place(alloc, fragment)?;
    }
    Ok(placing.into_tree())
}
