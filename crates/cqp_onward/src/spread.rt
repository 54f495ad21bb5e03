//! The prefixes side by side in a process.

ghost use Rattle.std.specs.Prelude.{◌≡◌, ◌++◌, IfOk, OnOk};
ghost use Rattle.std.specs.List.{AllByRecursion};
ghost use Rattle.cqp_syntax.specs.Listing.{IsProc};
ghost use Rattle.cqp_parts.specs.Parts.{node_at, prefixes_at};
ghost use Rattle.cqp_parts.specs.Parts.{IsProcessAt};
ghost use Rattle.cqp_onward.specs.Spreads.{found_at, opened_by};

use cqp_syntax::{NoMemory, Node, Proc};
use std::alloc::Global;

/// The numbers of the prefixes side by side in the process at n, from left to right.
pub(crate) fn prefixes(proc: &Proc, alloc: Global, n: u32) -> Result<Vec<u32>, NoMemory>
    requires process { IsProc proc.now }
    requires there { IsProcessAt proc.now n }
    ensures numbers { IfOk result (λ numbers. numbers.items ≡ prefixes_at proc.now n) }
    ensures each { IfOk result (λ numbers.
        AllByRecursion (IsProcessAt proc.now) numbers.items) }
{
    let mut stack = Vec::new(alloc);
    let mut numbers = Vec::new(alloc);
    stack.push(n)?;
    while let Some(m) = stack.pop() {
        open_at(proc, m, &mut stack, &mut numbers)?;
    }
    Ok(numbers)
}

/// Opens a parallel composition, whose left side is first; a prefix is found.
fn open_at(
    proc: &Proc,
    m: u32,
    stack: &mut Vec<u32>,
    numbers: &mut Vec<u32>,
) -> Result<(), NoMemory>
    requires { IsProcessAt proc.now m }
    ensures opened { OnOk result (stack.new.items
        ≡ stack.old.items ++ opened_by (node_at proc.now m)) }
    ensures found { OnOk result (numbers.new.items
        ≡ numbers.old.items ++ found_at m (node_at proc.now m)) }
{
    match proc.node(m) {
        Node::Par { left, right } => {
            stack.push(*right)?;
            stack.push(*left)?;
        }
        Node::Nil => {}
        _ => numbers.push(m)?,
    }
    Ok(())
}
