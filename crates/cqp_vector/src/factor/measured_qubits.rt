//! Measured qubits, each as a factor of its own.

ghost use Rattle.std.specs.Prelude.{◌≡◌, ◌<◌, ◌≤◌, ◌==◌, if◌then◌else◌, length, IfOk};
ghost use Rattle.cqp_ring.specs.Amp.{one_amp};
ghost use Rattle.cqp_vector.specs.Pieces as words;
ghost use Rattle.cqp_vector.specs.Pieces.{IsScalar};
ghost use Rattle.cqp_vector.specs.Places.{ArePlaces};

use super::Factor;
use crate::outcomes::bit_at;
use crate::pieces;
use cqp_ring::Amp;
use std::alloc::{AllocError, Global};

/// One qubit with a numerator at its bit.
fn single(alloc: Global, q: u32, bit: usize, amp: Amp, h: u32) -> Result<Factor, AllocError>
    requires { IsScalar amp h }
    ensures { IfOk result (λ f. f ≡ words.single q bit amp h) }
{
    Ok(Factor {
        qubits: pieces::alone(alloc, q)?,
        nums: pieces::at_bit(alloc, bit == 1, amp)?,
        h,
    })
}

/// The qubit at a measured place, with its bit of the outcome.
fn measured(
    alloc: Global,
    qubits: &[u32],
    places: &[u32],
    outcome: u32,
    i: usize,
    amp: Amp,
    h: u32,
) -> Result<Factor, AllocError>
    requires few { length qubits.now ≤ 12 }
    requires places { ArePlaces (length qubits.now) places.now }
    requires place { i < length places.now }
    requires scalar { IsScalar amp h }
    ensures { IfOk result (λ f. f ≡ words.measured places.now outcome qubits.now i amp h) }
{
    let bit = bit_at(places.len() as u32, i as u32, outcome as usize);
    single(alloc, qubits[places[i] as usize], bit, amp, h)
}

/// A measured qubit: the first keeps the numerator, the others have 1.
fn nth(
    alloc: Global,
    qubits: &[u32],
    places: &[u32],
    outcome: u32,
    i: usize,
    amp: Amp,
    h: u32,
) -> Result<Factor, AllocError>
    requires few { length qubits.now ≤ 12 }
    requires places { ArePlaces (length qubits.now) places.now }
    requires place { i < length places.now }
    requires scalar { IsScalar amp h }
    ensures { IfOk result (λ f. f
        ≡ (if i == 0 then words.measured places.now outcome qubits.now i amp h
        else words.measured places.now outcome qubits.now i one_amp 0)) }
{
    if i == 0 {
        measured(alloc, qubits, places, outcome, i, amp, h)
    } else {
        measured(alloc, qubits, places, outcome, i, pieces::ONE, 0)
    }
}

/// Each measured qubit alone, the first with the numerator, the others with 1.
pub(super) fn singles(
    alloc: Global,
    qubits: &[u32],
    places: &[u32],
    outcome: u32,
    amp: Amp,
    h: u32,
) -> Result<Vec<Factor>, AllocError>
    requires few { length qubits.now ≤ 12 }
    requires places { ArePlaces (length qubits.now) places.now }
    requires scalar { IsScalar amp h }
    ensures { IfOk result (λ v. v.items ≡ words.singles places.now outcome qubits.now amp h) }
{
    let mut list = Vec::new(alloc);
    for i in 0..places.len() {
        list.push(nth(alloc, qubits, places, outcome, i, amp, h)?)?;
    }
    Ok(list)
}
