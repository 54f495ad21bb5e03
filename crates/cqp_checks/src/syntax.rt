//! Two small processes are made and read.

ghost use Rattle.std.specs.Prelude.{◌≡◌, ◌++◌, IfOk, OnOk};
ghost use Rattle.cqp_syntax.specs.Listing.{root};
ghost use Rattle.cqp_syntax.specs.Preorder.{process_nodes};
ghost use Rattle.cqp_syntax.specs.Examples.{one_gate, one_message, sender, receiver};

use cqp_syntax::{Names, NoMemory, Node, Nodes, Op, Proc, Ty, Types, Val};
use std::alloc::Global;
use std::test::Fail;

fn gate_nodes(alloc: Global) -> Result<Nodes, NoMemory>
    ensures { IfOk result (λ nodes. nodes ≡ process_nodes 0 one_gate) }
{
    let qubits = Names::from_vec(vec![in alloc; 0]?);
    let mut nodes = Nodes::new(alloc);
    nodes.push(Node::Qbit { name: 0, body: 1 })?;
    nodes.push(Node::Act { expr: 2, body: 4 })?;
    nodes.push(Node::Apply { qubits, op: 3 })?;
    nodes.push(Node::Gate { op: Op::H })?;
    nodes.push(Node::Nil)?;
    Ok(nodes)
}

/// The process of `(qbit x){x *= H}.0`.
fn gate_process(alloc: Global) -> Result<Proc, NoMemory>
    ensures { IfOk result (λ p. root p ≡ one_gate) }
{
    let nodes = gate_nodes(alloc)?;
    let types = Types::from_vec(vec![in alloc; Ty::Qbit]?);
    let ty_of = Names::from_vec(vec![in alloc; 0]?);
    let at = Names::from_vec(vec![in alloc; 0, 8, 9, 14, 17]?);
    Ok(Proc::make(nodes, types, ty_of, at))
}

/// Puts the nodes of `c![1 + 2].0` last, of which the first has number 2.
fn push_sender(alloc: Global, nodes: &mut Nodes) -> Result<(), NoMemory>
    ensures { OnOk result (nodes.new ≡ nodes.old ++ process_nodes 2 sender) }
{
    let args = Names::from_vec(vec![in alloc; 3]?);
    let (chan, body) = (0, 6);
    nodes.push(Node::Out { chan, args, body })?;
    nodes.push(Node::Add { left: 4, right: 5 })?;
    nodes.push(Node::Num { v: 1 })?;
    nodes.push(Node::Num { v: 2 })?;
    nodes.push(Node::Nil)
}

/// Puts the nodes of `c?[n:Int].if n = 3 then 0 else 0` last, of which the first has number 7.
fn push_receiver(alloc: Global, nodes: &mut Nodes) -> Result<(), NoMemory>
    ensures { OnOk result (nodes.new ≡ nodes.old ++ process_nodes 7 receiver) }
{
    let params = Names::from_vec(vec![in alloc; 1]?);
    let (chan, body) = (0, 8);
    nodes.push(Node::In { chan, params, body })?;
    nodes.push(Node::If {
        left: 9,
        right: 10,
        yes: 11,
        no: 12,
    })?;
    nodes.push(Node::Name { name: 1 })?;
    nodes.push(Node::Num { v: 3 })?;
    nodes.push(Node::Nil)?;
    nodes.push(Node::Nil)
}

fn message_nodes(alloc: Global) -> Result<Nodes, NoMemory>
    ensures { IfOk result (λ nodes. nodes ≡ process_nodes 0 one_message) }
{
    let mut nodes = Nodes::new(alloc);
    nodes.push(Node::New { name: 0, body: 1 })?;
    nodes.push(Node::Par { left: 2, right: 7 })?;
    push_sender(alloc, &mut nodes)?;
    push_receiver(alloc, &mut nodes)?;
    Ok(nodes)
}

/// The process of `(new c:^[Int])(c![1 + 2].0|c?[n:Int].if n = 3 then 0 else 0)`.
fn message_process(alloc: Global) -> Result<Proc, NoMemory>
    ensures { IfOk result (λ p. root p ≡ one_message) }
{
    let nodes = message_nodes(alloc)?;
    let parts = Names::from_vec(vec![in alloc; 0]?);
    let mut types = Types::new(alloc);
    types.push(Ty::Int)?;
    types.push(Ty::Chan { of: parts })?;
    let ty_of = Names::from_vec(vec![in alloc; 1, 0]?);
    let at = Names::from_vec(vec![in alloc; 0, 26, 15, 20, 18, 22, 25, 27, 37, 40, 44, 51, 58]?);
    Ok(Proc::make(nodes, types, ty_of, at))
}

#[test]
fn a_gate_is_made_and_read(rt: HostRuntime) -> Result<(), Fail> {
    let gate = gate_process(rt.alloc())?;
    assert_eq!(rt; gate.len(), 5);
    assert!(rt; matches!(gate.node(0), Node::Qbit { name: 0, body: 1 }));
    let Node::Apply { qubits, op: 3 } = gate.node(2) else {
        panic!(rt; "no gate is applied")
    };
    assert!(rt; qubits.as_slice() == [0].as_slice());
    assert!(rt; matches!(gate.node(3), Node::Gate { op: Op::H }));
    assert_eq!(rt; gate.pos(2), 9);
    assert_eq!(rt; (gate.size(), gate.nodes(), gate.need()), (3, 6, 1));
    assert!(rt; gate.free_in(0, 1) && !gate.free_in(0, 0) && !gate.free_in(0, 4));
    Ok(())
}

#[test]
fn a_message_is_made_and_read(rt: HostRuntime) -> Result<(), Fail> {
    let message = message_process(rt.alloc())?;
    assert_eq!(rt; message.len(), 13);
    let Node::Out { chan: 0, args, .. } = message.node(2) else {
        panic!(rt; "nothing is sent")
    };
    assert!(rt; args.as_slice() == [3].as_slice());
    let Node::In {
        params,
        body: 8,
        ..
    } = message.node(7)
    else {
        panic!(rt; "nothing is received")
    };
    assert!(rt; params.as_slice() == [1].as_slice());
    assert!(rt; matches!(message.node(12), Node::Nil));
    assert_eq!(rt; message.names(), 2);
    assert_eq!(rt; message.ty_of(0), 1);
    assert!(rt; matches!(message.ty(0), Ty::Int));
    assert_eq!(rt;
        (message.size(), message.nodes(), message.need()),
        (5, 14, 0)
    );
    Ok(())
}

#[test]
fn gates_have_their_places(rt: HostRuntime) {
    let one = [Op::I, Op::X, Op::Y, Op::Z, Op::H, Op::S, Op::T];
    assert!(rt; one.iter().all(|op| op.places() == 1));
    let two = [Op::CNot, Op::CZ, Op::Swap];
    assert!(rt; two.iter().all(|op| op.places() == 2));
    assert_eq!(rt; Op::Toffoli.places(), 3);
    let gate = Val::Gate { op: Op::T };
    assert!(rt; gate == Val::Gate { op: Op::T } && gate != Val::Unit);
}
