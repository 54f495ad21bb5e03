//! Processes that are checked: right ones, some with a fault, and one with too many qubits.

ghost use Rattle.std.specs.Prelude.{◌≡◌, IfOk};
ghost use Rattle.cqp_syntax.specs.Listing.{root};
ghost use Rattle.cqp_syntax.specs.Preorder.{process_nodes};
ghost use Rattle.cqp_types.specs.Examples.{on_both_sides, sent_and_used};
ghost use Rattle.cqp_run_checks.specs.QubitBinders.{qubits_from, thirteen_qubits};

use crate::run::{gate_process, push_gate};
use cqp_syntax::{Names, NoMemory, Node, Nodes, Op, Proc, Ty, Types};
use cqp_types::{
    Kind, TypeEnd, check, derivation_laws, free_slot_laws, strengthening_laws, value_laws,
    weakening_laws,
};
use std::alloc::Global;
use std::test::Fail;

/// The nodes of `(qbit x)({x *= H}.0|{x *= X}.0)`.
fn both_sides_nodes(alloc: Global) -> Result<Nodes, NoMemory>
    ensures { IfOk result (λ nodes. nodes ≡ process_nodes 0 on_both_sides) }
{
    let mut nodes = Nodes::new(alloc);
    nodes.push(Node::Qbit { name: 0, body: 1 })?;
    nodes.push(Node::Par { left: 2, right: 6 })?;
    push_gate(alloc, &mut nodes, 2, Op::H, 0)?;
    nodes.push(Node::Nil)?;
    push_gate(alloc, &mut nodes, 6, Op::X, 0)?;
    nodes.push(Node::Nil)?;
    Ok(nodes)
}

/// The process of `(qbit x)({x *= H}.0|{x *= X}.0)`.
fn both_sides_process(alloc: Global) -> Result<Proc, NoMemory>
    ensures { IfOk result (λ p. root p ≡ on_both_sides) }
{
    let nodes = both_sides_nodes(alloc)?;
    let mut types = Types::new(alloc);
    types.push(Ty::Qbit)?;
    let ty_of = Names::from_vec(vec![in alloc; 0]?);
    let at = Names::from_vec(vec![in alloc; 0, 19, 9, 10, 15, 18, 20, 21, 26, 29]?);
    Ok(Proc::make(nodes, types, ty_of, at))
}

/// The nodes of `(qbit x)(new c:^[Qbit])(c![x].{measure x}.0|c?[y:Qbit].0)`.
fn sent_and_used_nodes(alloc: Global) -> Result<Nodes, NoMemory>
    ensures { IfOk result (λ nodes. nodes ≡ process_nodes 0 sent_and_used) }
{
    let args = Names::from_vec(vec![in alloc; 4]?);
    let qubits = Names::from_vec(vec![in alloc; 0]?);
    let params = Names::from_vec(vec![in alloc; 2]?);
    let mut nodes = Nodes::new(alloc);
    nodes.push(Node::Qbit { name: 0, body: 1 })?;
    nodes.push(Node::New { name: 1, body: 2 })?;
    nodes.push(Node::Par { left: 3, right: 8 })?;
    nodes.push(Node::Out {
        chan: 1,
        args,
        body: 5,
    })?;
    nodes.push(Node::Name { name: 0 })?;
    nodes.push(Node::Act { expr: 6, body: 7 })?;
    nodes.push(Node::Measure { qubits })?;
    nodes.push(Node::Nil)?;
    nodes.push(Node::In {
        chan: 1,
        params,
        body: 9,
    })?;
    nodes.push(Node::Nil)?;
    Ok(nodes)
}

/// The process of `(qbit x)(new c:^[Qbit])(c![x].{measure x}.0|c?[y:Qbit].0)`.
fn sent_and_used_process(alloc: Global) -> Result<Proc, NoMemory>
    ensures { IfOk result (λ p. root p ≡ sent_and_used) }
{
    let nodes = sent_and_used_nodes(alloc)?;
    let parts = Names::from_vec(vec![in alloc; 0]?);
    let mut types = Types::new(alloc);
    types.push(Ty::Qbit)?;
    types.push(Ty::Chan { of: parts })?;
    let ty_of = Names::from_vec(vec![in alloc; 0, 1, 0]?);
    let at = Names::from_vec(vec![in alloc; 0, 8, 43, 24, 27, 30, 31, 42, 44, 55]?);
    Ok(Proc::make(nodes, types, ty_of, at))
}

/// The nodes of thirteen binders of qubits, one inside the other.
fn thirteen_nodes(alloc: Global) -> Result<Nodes, NoMemory>
    ensures { IfOk result (λ nodes. nodes ≡ process_nodes 0 (qubits_from 13 0)) }
{
    let mut nodes = Nodes::new(alloc);
    nodes.push(Node::Qbit { name: 0, body: 1 })?;
    nodes.push(Node::Qbit { name: 1, body: 2 })?;
    nodes.push(Node::Qbit { name: 2, body: 3 })?;
    nodes.push(Node::Qbit { name: 3, body: 4 })?;
    nodes.push(Node::Qbit { name: 4, body: 5 })?;
    nodes.push(Node::Qbit { name: 5, body: 6 })?;
    nodes.push(Node::Qbit { name: 6, body: 7 })?;
    nodes.push(Node::Qbit { name: 7, body: 8 })?;
    nodes.push(Node::Qbit { name: 8, body: 9 })?;
    nodes.push(Node::Qbit { name: 9, body: 10 })?;
    nodes.push(Node::Qbit { name: 10, body: 11 })?;
    nodes.push(Node::Qbit { name: 11, body: 12 })?;
    nodes.push(Node::Qbit { name: 12, body: 13 })?;
    nodes.push(Node::Nil)?;
    Ok(nodes)
}

/// The process of thirteen binders of qubits, `(qbit a)` to `(qbit m)`, before `0`.
fn thirteen_process(alloc: Global) -> Result<Proc, NoMemory>
    ensures { IfOk result (λ p. root p ≡ thirteen_qubits) }
{
    let nodes = thirteen_nodes(alloc)?;
    let mut types = Types::new(alloc);
    types.push(Ty::Qbit)?;
    let ty_of = Names::from_vec(vec![in alloc; 0, 0, 0, 0, 0, 0, 0, 0, 0, 0, 0, 0, 0]?);
    let places = vec![in alloc; 0, 8, 16, 24, 32, 40, 48, 56, 64, 72, 80, 88, 96, 104]?;
    Ok(Proc::make(nodes, types, ty_of, Names::from_vec(places)))
}

#[test]
fn one_gate_is_derivable(rt: HostRuntime) -> Result<(), Fail> {
    let Ok(typed) = check(rt.alloc(), gate_process(rt.alloc())?) else {
        panic!(rt; "a process is refused")
    };
    assert_eq!(rt; (typed.proc().len(), typed.proc().need()), (5, 1));
    derivation_laws();
    free_slot_laws();
    weakening_laws();
    strengthening_laws();
    value_laws();
    Ok(())
}

#[test]
fn the_least_failing_node_is_told(rt: HostRuntime) -> Result<(), Fail> {
    let Err(TypeEnd::Fault { node, kind, given }) = check(
        rt.alloc(),
        both_sides_process(rt.alloc())?,
    ) else {
        panic!(rt; "a qubit stands on both sides")
    };
    assert_eq!(rt; (node, kind, given.len()), (1, Kind::SplitTwice, 10));
    let Err(TypeEnd::Fault { node, kind, given }) = check(
        rt.alloc(),
        sent_and_used_process(rt.alloc())?,
    ) else {
        panic!(rt; "a qubit is sent and used")
    };
    assert_eq!(rt; (node, kind, given.len()), (3, Kind::SentAndUsed, 10));
    Ok(())
}

#[test]
fn thirteen_qubits_are_too_many(rt: HostRuntime) -> Result<(), Fail> {
    let Err(TypeEnd::TooManyQubits { need, given }) = check(
        rt.alloc(),
        thirteen_process(rt.alloc())?,
    ) else {
        panic!(rt; "thirteen qubits are taken")
    };
    assert_eq!(rt; (need, given.len()), (13, 14));
    Ok(())
}
