//! A process in words: each node with its operands and its offset, and the types of its names.

use cqp_parse::NoMemory;
use cqp_syntax::{Node, Proc, Ty};
use std::alloc::Global;

/// The nodes of a process, and behind a colon the types of its names.
pub(super) fn process_words(alloc: Global, process: &Proc) -> Result<String, NoMemory> {
    let mut words = String::new(alloc);
    for n in 0..process.len() {
        let node = node_words(alloc, process.node(n))?;
        let at = process.pos(n);
        words.push_str(format!(in alloc; "{node} @{at}; ")?.as_str())?;
    }
    words.push_str(":")?;
    for name in 0..process.names() {
        let ty = type_words(alloc, process.ty(process.ty_of(name)))?;
        words.push_str(format!(in alloc; " {ty}")?.as_str())?;
    }
    Ok(words)
}

/// A node's kind, its names and the numbers of its parts.
fn node_words(alloc: Global, node: &Node) -> Result<String, NoMemory> {
    match node {
        Node::Nil => format!(in alloc; "nil"),
        Node::Par { left, right } => format!(in alloc; "par {left} {right}"),
        Node::New { name, body } => format!(in alloc; "new {name} {body}"),
        Node::Qbit { name, body } => format!(in alloc; "qbit {name} {body}"),
        Node::Act { expr, body } => format!(in alloc; "act {expr} {body}"),
        Node::If {
            left,
            right,
            yes,
            no,
        } => format!(in alloc; "if {left} {right} {yes} {no}"),
        _ => message_words(alloc, node),
    }
}

/// The same of an input, an output or an expression.
fn message_words(alloc: Global, node: &Node) -> Result<String, NoMemory> {
    match node {
        Node::In { chan, params, body } => {
            let params = list_words(alloc, params.as_slice())?;
            format!(in alloc; "in {chan} {params} {body}")
        }
        Node::Out { chan, args, body } => {
            let args = list_words(alloc, args.as_slice())?;
            format!(in alloc; "out {chan} {args} {body}")
        }
        _ => expr_words(alloc, node),
    }
}

/// The same of an expression.
fn expr_words(alloc: Global, node: &Node) -> Result<String, NoMemory> {
    match node {
        Node::Num { v } => format!(in alloc; "{v}"),
        Node::Unit => format!(in alloc; "unit"),
        Node::Name { name } => format!(in alloc; "name {name}"),
        Node::Gate { op } => format!(in alloc; "{op}"),
        Node::Sig { of } => format!(in alloc; "sig {of}"),
        Node::Add { left, right } => format!(in alloc; "add {left} {right}"),
        _ => operand_words(alloc, node),
    }
}

/// The same of a gate's application or a measurement.
fn operand_words(alloc: Global, node: &Node) -> Result<String, NoMemory> {
    match node {
        Node::Apply { qubits, op } => {
            let qubits = list_words(alloc, qubits.as_slice())?;
            format!(in alloc; "apply {qubits} {op}")
        }
        Node::Measure { qubits } => {
            let qubits = list_words(alloc, qubits.as_slice())?;
            format!(in alloc; "measure {qubits}")
        }
        _ => format!(in alloc; "another node"),
    }
}

/// Numbers with commas between them.
fn list_words(alloc: Global, numbers: &[u32]) -> Result<String, NoMemory> {
    let mut words = String::new(alloc);
    for number in numbers {
        if !words.is_empty() {
            words.push_str(",")?;
        }
        words.push_str(format!(in alloc; "{number}")?.as_str())?;
    }
    Ok(words)
}

/// A type. Of a channel, how many values it carries.
fn type_words(alloc: Global, ty: &Ty) -> Result<String, NoMemory> {
    match ty {
        Ty::Int => format!(in alloc; "Int"),
        Ty::Unit => format!(in alloc; "Unit"),
        Ty::Qbit => format!(in alloc; "Qbit"),
        Ty::Op { places } => format!(in alloc; "Op({places})"),
        Ty::Chan { of } => {
            let count = of.as_slice().len();
            format!(in alloc; "^{count}")
        }
    }
}
