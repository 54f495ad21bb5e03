//! What a part does next.

use cqp_parts::Vals;
use cqp_syntax::{Names, Op};

/// A part's next reduction, as far as the part alone tells it.
#[derive(Debug, Drop)]
pub enum Turn {
    /// Makes a qubit.
    Qbit,
    /// Makes a channel.
    New,
    /// Ends an action.
    Act,
    /// Adds two numbers to `v`, modulo 2^32.
    Add { v: u32 },
    /// Picks a gate from a number.
    Pick { op: Op },
    /// Applies a gate to qubits, a control first.
    Gate { op: Op, qubits: Names },
    /// Measures qubits, of which the first is the most significant bit of the outcome.
    Measure { qubits: Names },
    /// Is ready to send these values on the channel.
    Send { chan: u32, vals: Vals },
    /// Is ready to receive on the channel.
    Receive { chan: u32 },
    /// Takes a branch: `yes` where the two numbers are equal.
    If { yes: bool },
}
