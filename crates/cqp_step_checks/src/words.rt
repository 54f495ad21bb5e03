//! Words for turns and parts.

use cqp_order::Stand;
use cqp_parts::Part;
use cqp_syntax::{NoMemory, Val};
use cqp_turns::Turn;
use std::alloc::Global;

/// A value: `q1` and `c0` for a qubit and a channel.
fn value(alloc: Global, val: Val) -> Result<String, NoMemory> {
    match val {
        Val::Num { v } => format!(in alloc; " {v}"),
        Val::Unit => format!(in alloc; " unit"),
        Val::Gate { op } => format!(in alloc; " {op}"),
        Val::Qubit { q } => format!(in alloc; " q{q}"),
        Val::Chan { c } => format!(in alloc; " c{c}"),
    }
}

/// Puts numbers last.
fn push_numbers(alloc: Global, words: &mut String, numbers: &[u32]) -> Result<(), NoMemory> {
    for number in numbers {
        words.push_str(format!(in alloc; " {number}")?.as_str())?;
    }
    Ok(())
}

/// Puts values last.
fn push_values(alloc: Global, words: &mut String, vals: &[Val]) -> Result<(), NoMemory> {
    for val in vals {
        words.push_str(value(alloc, *val)?.as_str())?;
    }
    Ok(())
}

/// A turn, as a trace would write it.
pub(crate) fn turn_words(alloc: Global, turn: &Turn) -> Result<String, NoMemory> {
    match turn {
        Turn::Qbit => format!(in alloc; "qbit"),
        Turn::New => format!(in alloc; "new"),
        Turn::Act => format!(in alloc; "act"),
        Turn::Add { v } => format!(in alloc; "add {v}"),
        Turn::Pick { op } => format!(in alloc; "pick {op}"),
        Turn::Gate { op, qubits } => {
            let mut words = format!(in alloc; "gate {op}")?;
            push_numbers(alloc, &mut words, qubits.as_slice())?;
            Ok(words)
        }
        Turn::Measure { qubits } => {
            let mut words = format!(in alloc; "measure")?;
            push_numbers(alloc, &mut words, qubits.as_slice())?;
            Ok(words)
        }
        Turn::Send { chan, vals } => {
            let mut words = format!(in alloc; "send on {chan}:")?;
            push_values(alloc, &mut words, vals.as_slice())?;
            Ok(words)
        }
        Turn::Receive { chan } => format!(in alloc; "receive on {chan}"),
        Turn::If { yes } => format!(in alloc; "if {yes}"),
    }
}

/// How a part stands, where it waits.
pub(crate) fn stand_words(alloc: Global, stand: Stand) -> Result<String, NoMemory> {
    match stand {
        Stand::Alone => format!(in alloc; ""),
        Stand::Sends { chan } => format!(in alloc; ", sends {chan}"),
        Stand::Receives { chan } => format!(in alloc; ", receives {chan}"),
    }
}

/// A part: its node, its bindings, and its results.
pub(crate) fn part_words(alloc: Global, part: &Part) -> Result<String, NoMemory> {
    let mut words = format!(in alloc; "at {}", part.node)?;
    for bind in part.env.as_slice() {
        words.push_str(format!(in alloc; " {}:", bind.name)?.as_str())?;
        words.push_str(value(alloc, bind.val)?.as_str())?;
    }
    for val in part.vals.as_slice() {
        words.push_str(" got")?;
        words.push_str(value(alloc, *val)?.as_str())?;
    }
    Ok(words)
}
