//! The steps of the walks. What a deed gives, as a number or an outcome, is right by the rules.

ghost use Rattle.std.specs.Prelude.{◌≡◌, ◌++◌, [], ◌∷◌, Some, IfOk, OnOk};
ghost use Rattle.cqp_syntax.specs.declared.op.Op.TheVariants.{H};
ghost use Rattle.cqp_trace.specs.declared.deed.Deed.TheVariants as deed;
ghost use Rattle.cqp_step_checks.specs.Steps as walks;

use crate::processes::numbers;
use cqp_syntax::{NoMemory, Op};
use cqp_trace::Deed;
use std::alloc::Global;

/// Steps of a walk.
pub(crate) type Steps = Vec<Option<Deed>>;

/// A channel and two qubits.
#[tactic(auto, unfolding(crate::specs::Steps::start_steps))]
pub(crate) fn start_steps(alloc: Global) -> Result<Steps, NoMemory>
    ensures { IfOk result (λ steps. steps.items ≡ walks.start_steps) }
{
    let mut steps = Vec::new(alloc);
    steps.push(Some(Deed::New { c: 0 }))?;
    steps.push(Some(Deed::Qbit { q: 0 }))?;
    steps.push(Some(Deed::Qbit { q: 1 }))?;
    Ok(steps)
}

/// Puts a gate on both last, and one that is picked on the first.
#[tactic(auto, unfolding(crate::specs::Steps::gate_steps))]
fn push_gates(alloc: Global, steps: &mut Steps) -> Result<(), NoMemory>
    ensures { OnOk result (steps.new.items ≡ steps.old.items ++ walks.gate_steps) }
{
    let (both, one) = (numbers(alloc, &[1, 0])?, numbers(alloc, &[0])?);
    steps.push(Some(Deed::Gate {
        op: Op::CNot,
        qubits: both,
    }))?;
    steps.push(Some(Deed::Act))?;
    steps.push(Some(Deed::Add { v: 2 }))?;
    steps.push(Some(Deed::Pick { op: Op::Z }))?;
    steps.push(Some(Deed::Gate {
        op: Op::Z,
        qubits: one,
    }))?;
    steps.push(Some(Deed::Act))?;
    Ok(())
}

/// Puts a measurement of both with outcome 2 last, three sums, and the message.
#[tactic(auto, unfolding(crate::specs::Steps::sum_steps))]
fn push_sums(alloc: Global, steps: &mut Steps) -> Result<(), NoMemory>
    ensures { OnOk result (steps.new.items ≡ steps.old.items ++ walks.sum_steps) }
{
    let qubits = numbers(alloc, &[1, 0])?;
    steps.push(Some(Deed::Measure { qubits, outcome: 2 }))?;
    steps.push(Some(Deed::Add { v: 3 }))?;
    steps.push(Some(Deed::Add { v: 7 }))?;
    steps.push(Some(Deed::Add { v: 10 }))?;
    steps.push(Some(Deed::Com { to: 1, chan: 0 }))?;
    Ok(())
}

/// A channel, and values on it.
#[tactic(auto, unfolding(crate::specs::Steps::receipt_steps))]
pub(crate) fn receipt_steps(alloc: Global) -> Result<Steps, NoMemory>
    ensures { IfOk result (λ steps. steps.items ≡ walks.receipt_steps) }
{
    let mut steps = Vec::new(alloc);
    steps.push(Some(Deed::New { c: 0 }))?;
    steps.push(None)?;
    Ok(steps)
}

/// Puts two equal sums last, the first branch, and its end.
#[tactic(auto, unfolding(crate::specs::Steps::yes_steps))]
fn push_yes(steps: &mut Steps) -> Result<(), NoMemory>
    ensures { OnOk result (steps.new.items ≡ steps.old.items ++ walks.yes_steps) }
{
    steps.push(Some(Deed::Add { v: 6 }))?;
    steps.push(Some(Deed::Add { v: 6 }))?;
    steps.push(Some(Deed::If { yes: true }))?;
    steps.push(Some(Deed::Act))?;
    Ok(())
}

/// Puts two other sums last, and the second branch.
#[tactic(auto, unfolding(crate::specs::Steps::no_steps))]
fn push_no(steps: &mut Steps) -> Result<(), NoMemory>
    ensures { OnOk result (steps.new.items ≡ steps.old.items ++ walks.no_steps) }
{
    steps.push(Some(Deed::Add { v: 4 }))?;
    steps.push(Some(Deed::Add { v: 8 }))?;
    steps.push(Some(Deed::If { yes: false }))?;
    Ok(())
}

/// What a channel, two qubits, gates on them and a message of sums do.
pub(crate) fn all_steps(alloc: Global) -> Result<Steps, NoMemory>
    ensures { IfOk result (λ steps. steps.items
        ≡ walks.start_steps ++ (walks.gate_steps ++ walks.sum_steps)) }
{
    let mut steps = start_steps(alloc)?;
    push_gates(alloc, &mut steps)?;
    push_sums(alloc, &mut steps)?;
    Ok(steps)
}

/// A channel and two qubits, and then a message.
pub(crate) fn sent_steps(alloc: Global) -> Result<Steps, NoMemory>
    ensures { IfOk result (λ steps. steps.items
        ≡ walks.start_steps ++ Some (deed.Com 1 0) ∷ []) }
{
    let mut steps = start_steps(alloc)?;
    steps.push(Some(Deed::Com { to: 1, chan: 0 }))?;
    Ok(steps)
}

/// The same, and then H on the second qubit.
pub(crate) fn turned_steps(alloc: Global) -> Result<Steps, NoMemory>
    ensures { IfOk result (λ steps. steps.items
        ≡ walks.start_steps ++ Some (deed.Com 1 0) ∷ Some (deed.Gate H (1 ∷ [])) ∷ []) }
{
    let qubits = numbers(alloc, &[1])?;
    let mut steps = sent_steps(alloc)?;
    steps.push(Some(Deed::Gate { op: Op::H, qubits }))?;
    Ok(steps)
}

/// Values that are received, and then the first branch.
pub(crate) fn yes_steps(alloc: Global) -> Result<Steps, NoMemory>
    ensures { IfOk result (λ steps. steps.items ≡ walks.receipt_steps ++ walks.yes_steps) }
{
    let mut steps = receipt_steps(alloc)?;
    push_yes(&mut steps)?;
    Ok(steps)
}

/// Values that are received, and then the second branch.
pub(crate) fn no_steps(alloc: Global) -> Result<Steps, NoMemory>
    ensures { IfOk result (λ steps. steps.items ≡ walks.receipt_steps ++ walks.no_steps) }
{
    let mut steps = receipt_steps(alloc)?;
    push_no(&mut steps)?;
    Ok(steps)
}
