//! The nodes of processes, made by hand.

ghost use Rattle.std.specs.Prelude.{◌≡◌, ◌++◌, ◌+◌, ◌<◌, [], ◌∷◌, IfOk, OnOk};
ghost use Rattle.cqp_syntax.specs.declared.node.Node.TheVariants as node;
ghost use Rattle.cqp_syntax.specs.declared.op.Op.TheVariants.{CNot};
ghost use Rattle.cqp_syntax.specs.Preorder.{process_nodes};
ghost use Rattle.cqp_step_checks.specs.Processes.{giver, received, shared, sides, sums, sums_sent};

use crate::processes::numbers;
use cqp_syntax::{NoMemory, Node, Nodes, Op};
use std::alloc::Global;

/// The nodes of `((new a:^[])0|0)|(qbit x)0|{unit}.0`.
pub(crate) fn sides_nodes(alloc: Global) -> Result<Nodes, NoMemory>
    ensures { IfOk result (λ nodes. nodes ≡ process_nodes 0 sides) }
{
    let mut nodes = Nodes::new(alloc);
    nodes.push(Node::Par { left: 1, right: 5 })?;
    nodes.push(Node::Par { left: 2, right: 4 })?;
    nodes.push(Node::New { name: 0, body: 3 })?;
    nodes.push(Node::Nil)?;
    nodes.push(Node::Nil)?;
    nodes.push(Node::Par { left: 6, right: 8 })?;
    nodes.push(Node::Qbit { name: 1, body: 7 })?;
    nodes.push(Node::Nil)?;
    push_act(&mut nodes, 8)?;
    Ok(nodes)
}

/// Puts the nodes of `m + 1 = n + 3` last, of which the first has number 3.
fn push_sums(nodes: &mut Nodes) -> Result<(), NoMemory>
    ensures { OnOk result (nodes.new ≡ nodes.old ++ node.Add 4 5 ∷ node.Name 1 ∷ node.Num 1
        ∷ node.Add 7 8 ∷ node.Name 2 ∷ node.Num 3 ∷ []) }
{
    nodes.push(Node::Add { left: 4, right: 5 })?;
    nodes.push(Node::Name { name: 1 })?;
    nodes.push(Node::Num { v: 1 })?;
    nodes.push(Node::Add { left: 7, right: 8 })?;
    nodes.push(Node::Name { name: 2 })?;
    nodes.push(Node::Num { v: 3 })
}

/// Puts the nodes of `{unit}.0` last, of which the first has number `n`.
fn push_act(nodes: &mut Nodes, n: u32) -> Result<(), NoMemory>
    requires { n < 100 }
    ensures { OnOk result (nodes.new
        ≡ nodes.old ++ node.Act (n + 1) (n + 2) ∷ node.Unit ∷ node.Nil ∷ []) }
{
    let (expr, body) = (n + 1, n + 2);
    nodes.push(Node::Act { expr, body })?;
    nodes.push(Node::Unit)?;
    nodes.push(Node::Nil)
}

/// The nodes of `(new c:^[Int,Int])c?[m:Int,n:Int].if m + 1 = n + 3 then {unit}.0 else 0`.
pub(crate) fn received_nodes(alloc: Global) -> Result<Nodes, NoMemory>
    ensures { IfOk result (λ nodes. nodes ≡ process_nodes 0 received) }
{
    let params = numbers(alloc, &[1, 2])?;
    let mut nodes = Nodes::new(alloc);
    nodes.push(Node::New { name: 0, body: 1 })?;
    let (chan, body) = (0, 2);
    nodes.push(Node::In { chan, params, body })?;
    let (left, right, yes, no) = (3, 6, 9, 12);
    nodes.push(Node::If {
        left,
        right,
        yes,
        no,
    })?;
    push_sums(&mut nodes)?;
    push_act(&mut nodes, 9)?;
    nodes.push(Node::Nil)?;
    Ok(nodes)
}

/// Puts the nodes of `c![x].({y *= H}.0|c?[z:Qbit].0)` last, of which the first has number 4.
fn push_giver(alloc: Global, nodes: &mut Nodes) -> Result<(), NoMemory>
    ensures { OnOk result (nodes.new ≡ nodes.old ++ process_nodes 4 giver) }
{
    let (args, qubits) = (numbers(alloc, &[5])?, numbers(alloc, &[2])?);
    let (chan, body) = (0, 6);
    nodes.push(Node::Out { chan, args, body })?;
    nodes.push(Node::Name { name: 1 })?;
    nodes.push(Node::Par { left: 7, right: 11 })?;
    nodes.push(Node::Act { expr: 8, body: 10 })?;
    nodes.push(Node::Apply { qubits, op: 9 })?;
    nodes.push(Node::Gate { op: Op::H })?;
    nodes.push(Node::Nil)?;
    push_taker(alloc, nodes, 11, 3)
}

/// Puts the nodes of an input on `c` of a name last, of which the first has number `n`.
fn push_taker(alloc: Global, nodes: &mut Nodes, n: u32, name: u32) -> Result<(), NoMemory>
    requires { n < 100 }
    ensures { OnOk result (nodes.new ≡ nodes.old ++ node.In 0 (name ∷ []) (n + 1) ∷ node.Nil ∷ []) }
{
    let params = numbers(alloc, &[name])?;
    let (chan, body) = (0, n + 1);
    nodes.push(Node::In { chan, params, body })?;
    nodes.push(Node::Nil)
}

/// The nodes of three parts side by side, behind a channel and two qubits.
pub(crate) fn shared_nodes(alloc: Global) -> Result<Nodes, NoMemory>
    ensures { IfOk result (λ nodes. nodes ≡ process_nodes 0 shared) }
{
    let mut nodes = Nodes::new(alloc);
    nodes.push(Node::New { name: 0, body: 1 })?;
    nodes.push(Node::Qbit { name: 1, body: 2 })?;
    nodes.push(Node::Qbit { name: 2, body: 3 })?;
    nodes.push(Node::Par { left: 4, right: 13 })?;
    push_giver(alloc, &mut nodes)?;
    nodes.push(Node::Par {
        left: 14,
        right: 16,
    })?;
    push_taker(alloc, &mut nodes, 14, 4)?;
    push_act(&mut nodes, 16)?;
    Ok(nodes)
}

/// Puts the nodes of `{y,x *= CNot}.{x *= sig(4294967295 + 3)}` last, of which the first has
/// number 3.
fn push_gates(alloc: Global, nodes: &mut Nodes) -> Result<(), NoMemory>
    ensures { OnOk result (nodes.new ≡ nodes.old ++ node.Act 4 6 ∷ node.Apply (2 ∷ 1 ∷ []) 5
        ∷ node.Gate CNot ∷ node.Act 7 12 ∷ node.Apply (1 ∷ []) 8 ∷ node.Sig 9 ∷ node.Add 10 11
        ∷ node.Num 4294967295 ∷ node.Num 3 ∷ []) }
{
    let (both, one) = (numbers(alloc, &[2, 1])?, numbers(alloc, &[1])?);
    nodes.push(Node::Act { expr: 4, body: 6 })?;
    nodes.push(Node::Apply {
        qubits: both,
        op: 5,
    })?;
    nodes.push(Node::Gate { op: Op::CNot })?;
    nodes.push(Node::Act { expr: 7, body: 12 })?;
    nodes.push(Node::Apply { qubits: one, op: 8 })?;
    nodes.push(Node::Sig { of: 9 })?;
    nodes.push(Node::Add {
        left: 10,
        right: 11,
    })?;
    nodes.push(Node::Num { v: 4294967295 })?;
    nodes.push(Node::Num { v: 3 })
}

/// Puts the nodes of `c![measure y,x,1 + 2 + (3 + 4)].0` last, of which the first has number 12.
fn push_sums_sent(alloc: Global, nodes: &mut Nodes) -> Result<(), NoMemory>
    ensures { OnOk result (nodes.new ≡ nodes.old ++ process_nodes 12 sums_sent) }
{
    let (args, qubits) = (numbers(alloc, &[13, 14])?, numbers(alloc, &[2, 1])?);
    let (chan, body) = (0, 21);
    nodes.push(Node::Out { chan, args, body })?;
    nodes.push(Node::Measure { qubits })?;
    nodes.push(Node::Add {
        left: 15,
        right: 18,
    })?;
    nodes.push(Node::Add {
        left: 16,
        right: 17,
    })?;
    nodes.push(Node::Num { v: 1 })?;
    nodes.push(Node::Num { v: 2 })?;
    nodes.push(Node::Add {
        left: 19,
        right: 20,
    })?;
    nodes.push(Node::Num { v: 3 })?;
    nodes.push(Node::Num { v: 4 })?;
    nodes.push(Node::Nil)
}

/// The nodes of gates on two qubits and of a message of sums, behind their binders.
pub(crate) fn sums_nodes(alloc: Global) -> Result<Nodes, NoMemory>
    ensures { IfOk result (λ nodes. nodes ≡ process_nodes 0 sums) }
{
    let mut nodes = Nodes::new(alloc);
    nodes.push(Node::New { name: 0, body: 1 })?;
    nodes.push(Node::Qbit { name: 1, body: 2 })?;
    nodes.push(Node::Qbit { name: 2, body: 3 })?;
    push_gates(alloc, &mut nodes)?;
    push_sums_sent(alloc, &mut nodes)?;
    Ok(nodes)
}
