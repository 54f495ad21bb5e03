//! Walks along the first of the parts at which a process opens.

ghost use Rattle.std.specs.Prelude.{◌≡◌, true, IfOk, IsSome};
ghost use Rattle.std.specs.List.{AllByRecursion};
ghost use Rattle.cqp_parts.specs.Parts.{opening_parts, parts_after, process_of_part};
ghost use Rattle.cqp_standing.specs.Stands.{Stands};
ghost use Rattle.cqp_standing.specs.Suits.{suits};
ghost use Rattle.cqp_turns.specs.Turns.{turn_in};
ghost use Rattle.cqp_step_checks.specs.Walks.{has_step, has_steps, is_ready, next_parts, parts_led};

use crate::told::Told;
use crate::words::{part_words, stand_words, turn_words};
use cqp_onward::{Parts, go_on, look_ahead, opening, receive};
use cqp_parts::{Part, Vals};
use cqp_syntax::{NoMemory, Val};
use cqp_trace::Deed;
use cqp_turns::{applies_h, stand_of, turn_of};
use std::alloc::Global;
use std::test::Fail;

/// What a part does next, whether it applies H, and how it stands.
fn next_words(alloc: Global, told: &Told, part: &Part) -> Result<String, NoMemory>
    requires stands { Stands told.now part.now }
    requires takes { IsSome (turn_in (process_of_part told.now part.now)) }
{
    let turn = turn_of(&told.proc, &told.redexes, alloc, part)?;
    let mut words = turn_words(alloc, &turn)?;
    if applies_h(&told.proc, &told.redexes, part) {
        words.push_str(", is H")?;
    }
    let stand = stand_of(&told.proc, &told.redexes, part);
    words.push_str(stand_words(alloc, stand)?.as_str())?;
    words.push_str("; ")?;
    Ok(words)
}

/// The parts in the place of one after a deed. A sender looks ahead first.
fn after(alloc: Global, told: &Told, part: Part, deed: &Deed) -> Result<Parts, Fail>
    requires stands { Stands told.now part }
    requires suits { suits (process_of_part told.now part) deed.now ≡ true }
    ensures parts { IfOk result (λ parts. parts ≡ parts_after told.now part deed.now) }
    ensures stand { IfOk result (λ parts. AllByRecursion (Stands told.now) parts) }
{
    let (proc, uses) = (&told.proc, &told.uses);
    match deed {
        Deed::Com { .. } => {
            let ahead = look_ahead(proc, uses, alloc, &part)?;
            Ok(ahead.go(proc, uses, part))
        }
        _ => match go_on(proc, uses, alloc, part, deed) {
            Ok(parts) => Ok(parts),
            Err(_) => Err(Fail::from("memory is refused")),
        },
    }
}

/// The parts in the place of one after a step.
fn led(
    alloc: Global,
    told: &Told,
    vals: &Vals,
    part: Part,
    step: &Option<Deed>,
) -> Result<Parts, Fail>
    requires stands { Stands told.now part }
    requires ready { is_ready vals.now (process_of_part told.now part) step.now ≡ true }
    ensures parts { IfOk result (λ parts. parts ≡ parts_led told.now vals.now part step.now) }
    ensures stand { IfOk result (λ parts. AllByRecursion (Stands told.now) parts) }
{
    match step {
        Some(deed) => after(alloc, told, part, deed),
        None => match receive(&told.proc, &told.uses, alloc, part, vals) {
            Ok(parts) => Ok(parts),
            Err(_) => Err(Fail::from("memory is refused")),
        },
    }
}

/// Tells the next turn of the first part, and takes a step.
fn next(
    alloc: Global,
    told: &Told,
    vals: &Vals,
    parts: Parts,
    step: &Option<Deed>,
    words: &mut String,
) -> Result<Parts, Fail>
    requires stand { AllByRecursion (Stands told.now) parts }
    requires step { has_step told.now vals.now parts step.now ≡ true }
    ensures parts { IfOk result (λ next. next ≡ next_parts told.now vals.now parts step.now) }
    ensures stand { IfOk result (λ next. AllByRecursion (Stands told.now) next) }
{
    let (first, _) = parts.into_pair();
    match first {
        Some(part) => {
            words.push_str(next_words(alloc, told, &part)?.as_str())?;
            led(alloc, told, vals, part, step)
        }
        None => Err(Fail::from("no part is left")),
    }
}

/// Puts the parts last.
fn push_parts(alloc: Global, words: &mut String, parts: Parts) -> Result<(), NoMemory> {
    let (first, others) = parts.into_pair();
    if let Some(part) = first {
        words.push_str(part_words(alloc, &part)?.as_str())?;
    }
    for part in others.as_slice() {
        words.push_str(" | ")?;
        words.push_str(part_words(alloc, part)?.as_str())?;
    }
    Ok(())
}

/// The turns along steps of the first part, each before its step, and the parts behind the last. A
/// step that is no deed receives the values.
fn walk(alloc: Global, told: &Told, vals: &[Val], steps: &[Option<Deed>]) -> Result<String, Fail>
    requires { has_steps told.now vals.now (opening_parts told.now) steps.now ≡ true }
{
    let vals = Vals::from_vec(vals.to_vec(alloc)?);
    let mut words = String::new(alloc);
    let mut parts = opening(&told.proc, &told.uses, alloc)?;
    for step in steps {
        parts = next(alloc, told, &vals, parts, step, &mut words)?;
    }
    push_parts(alloc, &mut words, parts)?;
    Ok(words)
}

/// Whether the walk gives these words.
pub(crate) fn gives(
    alloc: Global,
    told: Told,
    vals: &[Val],
    steps: Vec<Option<Deed>>,
    wanted: &str,
) -> Result<bool, Fail>
    requires { has_steps told vals.now (opening_parts told) steps.items ≡ true }
{
    let words = walk(alloc, &told, vals, steps.as_slice())?;
    Ok(words.as_str() == wanted)
}
