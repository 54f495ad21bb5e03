//! What values are.

ghost use Rattle.std.specs.Prelude.{◌≡◌, ◌↔◌, IsTrue};
ghost use Rattle.cqp_cells.specs.Moves as moves;
ghost use Rattle.cqp_turns.specs.Turns.{number_of, gate_in, qubit_in, chan_in};
ghost use Rattle.cqp_vector.specs.Group.{factors_left_out};

use cqp_syntax::{Op, Val};

/// The number, or 0 where it is none.
pub(crate) fn number(val: Val) -> u32
    ensures { result ≡ number_of val }
{
    match val {
        Val::Num { v } => v,
        _ => 0,
    }
}

/// The gate, or I where it is none.
pub(crate) fn gate(val: Val) -> Op
    ensures { result ≡ gate_in val }
{
    match val {
        Val::Gate { op } => op,
        _ => Op::I,
    }
}

/// The qubit, or 0 where it is none.
pub(crate) fn qubit(val: Val) -> u32
    ensures { result ≡ qubit_in val }
{
    match val {
        Val::Qubit { q } => q,
        _ => 0,
    }
}

/// The channel, or 0 where it is none.
pub(crate) fn chan(val: Val) -> u32
    ensures { result ≡ chan_in val }
{
    match val {
        Val::Chan { c } => c,
        _ => 0,
    }
}

/// The gate that `sig` of a number is.
pub(crate) fn picked(number: u32) -> Op
    ensures { result ≡ moves.picked number }
{
    if number % 4 == 0 {
        Op::I
    } else if number % 4 == 1 {
        Op::X
    } else if number % 4 == 2 {
        Op::Z
    } else {
        Op::Y
    }
}

/// Whether the gate is H, which leaves out a factor.
pub(crate) fn is_h(op: Op) -> bool
    ensures { IsTrue result ↔ factors_left_out op ≡ 1 }
{
    op == Op::H
}
