//! The run on one thread: in plain order, with the outcomes that a chooser answers.

ghost use Rattle.std.specs.Prelude.{◌≡◌, IfOk, OnOk};
ghost use Rattle.cqp_choose.specs.Chooses.{Chooses};
ghost use Rattle.cqp_cells.specs.Waiting.{CanGoOn};
ghost use Rattle.cqp_paths.specs.Follows.{measure_total};
ghost use Rattle.cqp_paths.specs.Runs.{IsPlainRun};
ghost use Rattle.cqp_engine.specs.PlainRuns.{IsAdvanced, IsChosen, IsPlainSoFar};
ghost use Rattle.cqp_engine.specs.PlainRuns.{answers_of, trace_of};
ghost use Rattle.cqp_engine.specs.Progress.{IsSound, fresh};
ghost use Rattle.cqp_engine.specs.Upcoming.{IsLeastPart, IsMeasuring, told_norms};

use crate::engine::{Engine, Fit, Upcoming};
use cqp_cells::exponent_laws;
use cqp_choose::Kept;
use cqp_lists::NoMemory;
use cqp_paths::{active_laws, order_laws, progress_laws, size_laws};
use cqp_ring::{Root, Weight};
use cqp_syntax::Names;
use cqp_trace::{Deed, End, Entry};
use cqp_vector::Odd;
use std::alloc::Global;

/// How a run ended, and the probability of its entries.
#[derive(Clone, Copy, Debug)]
pub struct Ended {
    pub end: End,
    pub weight: Weight,
}

/// Runs the engine's process to its end, in plain order. The function is asked for the index of
/// each outcome. Want of memory is the one error, and then nothing is said of the engine.
pub fn plain_run<E: Engine, F: Fn(u64, &[Root]) -> u64>(
    alloc: Global,
    engine: &mut E,
    chooser: &Kept<F>,
) -> Result<Ended, NoMemory>
    requires fresh { E.progress engine.old ≡ fresh (E.progress engine.old).opening }
    requires sound { IsSound (E.progress engine.old).opening }
    requires kept { Chooses (F.pre chooser.now) (F.post chooser.now) }
    ensures run { IfOk result (λ ended. IsPlainRun (answers_of (F.post chooser.now))
        (E.progress engine.old).opening (trace_of (E.progress engine.new) ended)) }
    ensures opening { OnOk result
        ((E.progress engine.new).opening ≡ (E.progress engine.old).opening) }
{
    size_laws();
    loop {
        if let Some(end) = advance(alloc, engine, chooser)? {
            let weight = engine.weight();
            return Ok(Ended { end, weight });
        }
    }
}

// Makes the next entry, or gives the end.
fn advance<E: Engine, F: Fn(u64, &[Root]) -> u64>(
    alloc: Global,
    engine: &mut E,
    chooser: &Kept<F>,
) -> Result<Option<End>, NoMemory>
    requires sound { IsSound (E.progress engine.old).opening }
    requires kept { Chooses (F.pre chooser.now) (F.post chooser.now) }
    requires running { IsPlainSoFar (answers_of (F.post chooser.now)) (E.progress engine.old) }
    ensures { IfOk result (λ end. IsAdvanced (answers_of (F.post chooser.now))
        (E.progress engine.old) end (E.progress engine.new)) }
{
    progress_laws();
    match engine.least(alloc)? {
        Some(part) => advance_by(alloc, engine, chooser, part),
        None => Ok(Some(End::Done {
            left: engine.left(),
        })),
    }
}

// The same, where the part is the least.
fn advance_by<E: Engine, F: Fn(u64, &[Root]) -> u64>(
    alloc: Global,
    engine: &mut E,
    chooser: &Kept<F>,
    part: u32,
) -> Result<Option<End>, NoMemory>
    requires sound { IsSound (E.progress engine.old).opening }
    requires kept { Chooses (F.pre chooser.now) (F.post chooser.now) }
    requires running { IsPlainSoFar (answers_of (F.post chooser.now)) (E.progress engine.old) }
    requires least { IsLeastPart (E.progress engine.old).last part }
    ensures { IfOk result (λ end. IsAdvanced (answers_of (F.post chooser.now))
        (E.progress engine.old) end (E.progress engine.new)) }
{
    progress_laws();
    exponent_laws();
    let entry = next_entry(alloc, engine, chooser, part)?;
    match engine.make(alloc, entry)? {
        Fit::Made => Ok(None),
        _ => Ok(Some(End::Stopped { part })),
    }
}

// The entry that the least part makes next.
fn next_entry<E: Engine, F: Fn(u64, &[Root]) -> u64>(
    alloc: Global,
    engine: &mut E,
    chooser: &Kept<F>,
    part: u32,
) -> Result<Entry, NoMemory>
    requires kept { Chooses (F.pre chooser.now) (F.post chooser.now) }
    requires goes { CanGoOn (E.progress engine.old).last }
    requires least { IsLeastPart (E.progress engine.old).last part }
    ensures chosen { IfOk result (λ entry. IsChosen (answers_of (F.post chooser.now))
        (measure_total (E.progress engine.old).entries) (E.progress engine.old).last part entry) }
    ensures same { E.progress engine.new ≡ E.progress engine.old }
{
    active_laws();
    order_laws();
    match engine.upcoming(alloc, part)? {
        Upcoming::Entry { entry } => Ok(entry),
        Upcoming::Measurement { qubits } => measured(alloc, engine, chooser, part, qubits),
    }
}

// The measurement that the least part makes next, with the outcome at the index that is answered.
fn measured<E: Engine, F: Fn(u64, &[Root]) -> u64>(
    alloc: Global,
    engine: &mut E,
    chooser: &Kept<F>,
    part: u32,
    qubits: Names,
) -> Result<Entry, NoMemory>
    requires kept { Chooses (F.pre chooser.now) (F.post chooser.now) }
    requires least { IsLeastPart (E.progress engine.old).last part }
    requires measuring { IsMeasuring (E.progress engine.old).last part qubits }
    ensures chosen { IfOk result (λ entry. IsChosen (answers_of (F.post chooser.now))
        (measure_total (E.progress engine.old).entries) (E.progress engine.old).last part entry) }
    ensures same { E.progress engine.new ≡ E.progress engine.old }
{
    order_laws();
    let odds = engine.odds(alloc, part, &qubits)?;
    let norms = norms_of(alloc, odds.as_slice())?;
    let index = chooser.choose(engine.turn(), norms.as_slice());
    let outcome = odds.as_slice()[index as usize].outcome;
    let deed = Deed::Measure { qubits, outcome };
    Ok(Entry { part, deed })
}

// The norms of odds, for the function that is asked.
fn norms_of(alloc: Global, odds: &[Odd]) -> Result<Vec<Root>, NoMemory>
    ensures { IfOk result (λ norms. norms.items ≡ told_norms odds.now) }
{
    odds.iter().map(|odd| odd.norm).collect(alloc)
}
