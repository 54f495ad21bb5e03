//! Worked runs, by hand.

ghost use Rattle.std.specs.Prelude.{◌≡◌, ◌<◌, ◌+◌, [], ◌∷◌, ◌++◌, IfOk, OnOk};
ghost use Rattle.cqp_syntax.specs.declared.node.Node.TheVariants as node;
ghost use Rattle.cqp_syntax.specs.Examples.{one_gate};
ghost use Rattle.cqp_syntax.specs.Listing.{root};
ghost use Rattle.cqp_syntax.specs.Preorder.{process_nodes};
ghost use Rattle.cqp_syntax.specs.Trees.{nil};
ghost use Rattle.cqp_run_checks.specs.StraightLines.{three_gates};

use cqp_plain::{Run, chosen_run};
use cqp_ring::{Root, Weight};
use cqp_syntax::{Names, NoMemory, Node, Nodes, Op, Proc, Ty, Types};
use cqp_trace::{Deed, End};
use cqp_types::check;
use cqp_vector::Factor;
use cqp_words::Choice;
use std::alloc::Global;
use std::process::Abort;
use std::test::Fail;

/// Puts a gate on a name last, where the first of its nodes has number `n`.
pub(crate) fn push_gate(
    alloc: Global,
    nodes: &mut Nodes,
    n: u32,
    op: Op,
    name: u32,
) -> Result<(), NoMemory>
    requires { n < 100 }
    ensures { OnOk result (nodes.new ≡ nodes.old
        ++ node.Act (n + 1) (n + 3) ∷ node.Apply (name ∷ []) (n + 2) ∷ node.Gate op ∷ []) }
{
    let qubits = Names::from_vec(vec![in alloc; name]?);
    let (expr, body) = (n + 1, n + 3);
    nodes.push(Node::Act { expr, body })?;
    nodes.push(Node::Apply { qubits, op: n + 2 })?;
    nodes.push(Node::Gate { op })
}

/// The process of `0`.
fn nil_process(alloc: Global) -> Result<Proc, NoMemory>
    ensures { IfOk result (λ p. root p ≡ nil) }
{
    let mut nodes = Nodes::new(alloc);
    nodes.push(Node::Nil)?;
    let at = Names::from_vec(vec![in alloc; 0]?);
    Ok(Proc::make(nodes, Types::new(alloc), Names::new(alloc), at))
}

/// The process of `(qbit x){x *= H}.0`.
pub(crate) fn gate_process(alloc: Global) -> Result<Proc, NoMemory>
    ensures { IfOk result (λ p. root p ≡ one_gate) }
{
    let mut nodes = Nodes::new(alloc);
    nodes.push(Node::Qbit { name: 0, body: 1 })?;
    push_gate(alloc, &mut nodes, 1, Op::H, 0)?;
    nodes.push(Node::Nil)?;
    let mut types = Types::new(alloc);
    types.push(Ty::Qbit)?;
    let ty_of = Names::from_vec(vec![in alloc; 0]?);
    let at = Names::from_vec(vec![in alloc; 0, 8, 9, 14, 17]?);
    Ok(Proc::make(nodes, types, ty_of, at))
}

fn three_gates_nodes(alloc: Global) -> Result<Nodes, NoMemory>
    ensures { IfOk result (λ nodes. nodes ≡ process_nodes 0 three_gates) }
{
    let mut nodes = Nodes::new(alloc);
    nodes.push(Node::Qbit { name: 0, body: 1 })?;
    push_gate(alloc, &mut nodes, 1, Op::X, 0)?;
    nodes.push(Node::Qbit { name: 1, body: 5 })?;
    push_gate(alloc, &mut nodes, 5, Op::H, 1)?;
    push_gate(alloc, &mut nodes, 8, Op::H, 0)?;
    nodes.push(Node::Nil)?;
    Ok(nodes)
}

/// The process of `(qbit a){a *= X}.(qbit b){b *= H}.{a *= H}.0`.
fn three_gates_process(alloc: Global) -> Result<Proc, NoMemory>
    ensures { IfOk result (λ p. root p ≡ three_gates) }
{
    let nodes = three_gates_nodes(alloc)?;
    let mut types = Types::new(alloc);
    types.push(Ty::Qbit)?;
    let ty_of = Names::from_vec(vec![in alloc; 0, 0]?);
    let at = Names::from_vec(vec![in alloc; 0, 8, 9, 14, 17, 25, 26, 31, 34, 35, 40, 43]?);
    Ok(Proc::make(nodes, types, ty_of, at))
}

/// The run of a process by the script 0.
fn run_of(rt: &impl Abort, alloc: Global, proc: Proc) -> Result<Run, Fail> {
    let Ok(typed) = check(alloc, proc) else {
        panic!(rt; "a process is refused")
    };
    let numbers = vec![in alloc; 0]?;
    Ok(chosen_run(alloc, &typed, &Choice::Script { numbers })?)
}

/// Whether the run ends with no part left and weight 1.
fn is_done(run: &Run) -> bool {
    let one = Weight {
        top: Root { p: 1, q: 0 },
        below: 0,
    };
    run.trace.end == End::Done { left: 0 } && run.trace.weight == one
}

/// Whether the factor is of one qubit, which is as likely 0 as 1.
fn is_even(factor: &Factor, qubit: u32) -> bool {
    let two = Root { p: 2, q: 0 };
    factor.qubits() == [qubit].as_slice() && factor.h() == 1 && factor.norm() == two
}

#[test]
fn nothing_makes_no_entry(rt: HostRuntime) -> Result<(), Fail> {
    let alloc = rt.alloc();
    let run = run_of(&rt, alloc, nil_process(alloc)?)?;
    assert!(rt; is_done(&run));
    assert!(rt; run.trace.entries.is_empty());
    assert!(rt; run.factors.is_empty());
    Ok(())
}

#[test]
fn one_gate_has_these_entries(rt: HostRuntime) -> Result<(), Fail> {
    let alloc = rt.alloc();
    let run = run_of(&rt, alloc, gate_process(alloc)?)?;
    assert!(rt; is_done(&run));
    let [first, second, third] = run.trace.entries.as_slice() else {
        panic!(rt; "there are not three entries")
    };
    assert!(rt; first.part == 0 && second.part == 0 && third.part == 0);
    assert!(rt; matches!(first.deed, Deed::Qbit { q: 0 }));
    let Deed::Gate { op: Op::H, qubits } = &second.deed else {
        panic!(rt; "no H is applied")
    };
    assert!(rt; qubits.as_slice() == [0].as_slice());
    assert!(rt; matches!(third.deed, Deed::Act));
    let [factor] = run.factors.as_slice() else {
        panic!(rt; "there is not one factor")
    };
    assert!(rt; is_even(factor, 0));
    Ok(())
}

#[test]
fn three_gates_leave_two_factors(rt: HostRuntime) -> Result<(), Fail> {
    let alloc = rt.alloc();
    let run = run_of(&rt, alloc, three_gates_process(alloc)?)?;
    assert_eq!(rt; run.trace.entries.len(), 8);
    let [first, second] = run.factors.as_slice() else {
        panic!(rt; "there are not two factors")
    };
    assert!(rt; is_even(first, 0) && is_even(second, 1));
    Ok(())
}
