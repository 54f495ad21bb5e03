//! Redexes of expressions.

ghost use Rattle.std.specs.Prelude.{◌≡◌, ◌+◌, ◌<◌, ◌≤◌, [], ◌++◌, length, map, IfOk, OnOk};
ghost use Rattle.std.specs.Prelude.{◌∷◌};
ghost use Rattle.std.specs.List.{AllByRecursion, flat_map};
ghost use Rattle.cqp_syntax.specs.Listing.{IsProc, expr_at};
ghost use Rattle.cqp_syntax.specs.Measures.{expr_steps};
ghost use Rattle.cqp_redexes.specs.Evaluation.{CountsFrom, redexes_at, redexes_of};
ghost use Rattle.cqp_parts.specs.Parts.{node_at};
ghost use Rattle.cqp_redexes.specs.Trails.{IsExprAt, opened_at, opening, closing};

use cqp_syntax::{NoMemory, Node, Proc};
use std::alloc::Global;

/// How many redexes the expression at each number has.
pub(crate) fn counts_of(alloc: Global, proc: &Proc) -> Result<Vec<u32>, NoMemory>
    ensures { IfOk result (λ counts. CountsFrom proc.now counts.items 0) }
{
    let count = proc.len();
    let mut counts = vec![in alloc; 0u32; count as usize]?;
    for k in 0..count {
        let n = count - 1 - k;
        let redexes = count_at(proc, n, counts.as_slice());
        counts[n as usize] = redexes;
    }
    Ok(counts)
}

/// How many redexes the expression at n has, where those behind it are known.
fn count_at(proc: &Proc, n: u32, counts: &[u32]) -> u32
    requires within { n < length proc.now.nodes }
    requires few { length proc.now.nodes < 65537 }
    requires later { CountsFrom proc.now counts.now (n + 1) }
    ensures count { result ≡ expr_steps (expr_at proc.now n) }
    ensures small { n + result ≤ length proc.now.nodes }
{
    match proc.node(n) {
        Node::Sig { of } => counts[*of as usize] + 1,
        Node::Add { left, right } => counts[*left as usize] + counts[*right as usize] + 1,
        Node::Apply { qubits: _, op } => counts[*op as usize] + 1,
        Node::Measure { .. } => 1,
        _ => 0,
    }
}

/// A node that is open: its operands come first, and then, once they are done, it itself.
#[derive(Clone, Copy)]
pub(crate) struct Open {
    node: u32,
    done: bool,
}

/// Puts the redexes of the prefix at n last, in evaluation order.
pub(crate) fn push_redexes(
    proc: &Proc,
    stack: &mut Vec<Open>,
    n: u32,
    redexes: &mut Vec<u32>,
) -> Result<(), NoMemory>
    requires process { IsProc proc.now }
    requires within { n < length proc.now.nodes }
    requires empty { stack.old.items ≡ [] }
    ensures ok { OnOk result (redexes.new.items ≡ redexes.old.items ++ redexes_at proc.now n) }
    ensures done { OnOk result (stack.new.items ≡ []) }
{
    match proc.node(n) {
        Node::Act { expr, body: _ } => push_all(proc, stack, &[*expr], redexes),
        Node::Out { args, .. } => push_all(proc, stack, args.as_slice(), redexes),
        Node::If { left, right, .. } => push_all(proc, stack, &[*left, *right], redexes),
        _ => Ok(()),
    }
}

/// The redexes of expressions, each in evaluation order.
fn push_all(
    proc: &Proc,
    stack: &mut Vec<Open>,
    exprs: &[u32],
    redexes: &mut Vec<u32>,
) -> Result<(), NoMemory>
    requires process { IsProc proc.now }
    requires empty { stack.old.items ≡ [] }
    requires there { AllByRecursion (IsExprAt proc.now) exprs.now }
    ensures ok { OnOk result (redexes.new.items
        ≡ redexes.old.items ++ flat_map (λ n. redexes_of n (expr_at proc.now n)) exprs.now) }
    ensures done { OnOk result (stack.new.items ≡ []) }
{
    for n in exprs {
        push_trail(proc, stack, *n, redexes)?;
    }
    Ok(())
}

/// The redexes of the expression at n.
fn push_trail(
    proc: &Proc,
    stack: &mut Vec<Open>,
    n: u32,
    redexes: &mut Vec<u32>,
) -> Result<(), NoMemory>
    requires process { IsProc proc.now }
    requires empty { stack.old.items ≡ [] }
    requires there { IsExprAt proc.now n }
    ensures ok { OnOk result (redexes.new.items
        ≡ redexes.old.items ++ redexes_of n (expr_at proc.now n)) }
    ensures done { OnOk result (stack.new.items ≡ []) }
{
    stack.push(Open {
        node: n,
        done: false,
    })?;
    while let Some(next) = stack.pop() {
        if next.done {
            redexes.push(next.node)?;
        } else {
            open_node(proc, stack, next.node)?;
        }
    }
    Ok(())
}

/// Opens a node: its operands come first.
fn open_node(proc: &Proc, stack: &mut Vec<Open>, n: u32) -> Result<(), NoMemory>
    requires { n < length proc.now.nodes }
    ensures { OnOk result (stack.new.items ≡ stack.old.items ++ opened_at n (node_at proc.now n)) }
{
    match proc.node(n) {
        Node::Sig { of } | Node::Apply { qubits: _, op: of } => open_with(stack, n, &[*of]),
        Node::Add { left, right } => open_with(stack, n, &[*right, *left]),
        Node::Measure { .. } => open_with(stack, n, &[]),
        _ => Ok(()),
    }
}

/// The node itself, and before it the operands, the last of which comes first.
fn open_with(stack: &mut Vec<Open>, n: u32, operands: &[u32]) -> Result<(), NoMemory>
    ensures { OnOk result (stack.new.items
        ≡ stack.old.items ++ closing n ∷ map opening operands.now) }
{
    stack.push(Open {
        node: n,
        done: true,
    })?;
    for operand in operands {
        stack.push(Open {
            node: *operand,
            done: false,
        })?;
    }
    Ok(())
}
