//! Replay: whether a trace is one of the engine's process, and else the first reason why not.

ghost use Rattle.std.specs.Prelude.{◌≡◌, ◌↔◌, ◌+◌, ◌<◌, ◌^◌, IsTrue, IfOk};
ghost use Rattle.cqp_syntax.specs.Measures.{size};
ghost use Rattle.cqp_cells.specs.Lawful.{IsRightEnd, exponent_after};
ghost use Rattle.cqp_engine.specs.Progress.{HasMade, HasPath, IsSound, fresh};
ghost use Rattle.cqp_engine.specs.Replays.{IsRemade, IsReplayed};

use crate::engine::{Engine, Fit};
use cqp_lists::NoMemory;
use cqp_paths::{active_laws, progress_laws, size_laws};
use cqp_ring::Weight;
use cqp_trace::{End, Entry, Trace};
use std::alloc::Global;

/// A trace that is lawful has so many entries.
#[derive(Clone, Copy, Debug, PartialEq, Eq)]
pub struct Replayed {
    pub entries: u32,
}

/// Why a trace is refused: its first entry that continues no path, its end, or its weight. Lines
/// are counted as in the text of a trace, where the head line is line 0.
#[derive(Clone, Copy, Debug, PartialEq, Eq)]
pub enum ReplayEnd {
    NotStep { line: u32 },
    NotEnd { line: u32 },
    WrongWeight { given: Weight, right: Weight },
    NoMemory,
}

/// Makes the trace's entries, one after another, and compares its end and its weight. An H at the
/// limit of the exponent is an entry that continues no path.
pub fn replay<E: Engine>(
    alloc: Global,
    engine: &mut E,
    trace: &Trace,
) -> Result<Replayed, ReplayEnd>
    requires fresh { E.progress engine.old ≡ fresh (E.progress engine.old).opening }
    requires sound { IsSound (E.progress engine.old).opening }
    requires short { size (E.progress engine.old).opening + 1 < 2 ^ 32 }
    ensures replayed { IsReplayed (E.progress engine.old).opening trace.now result }
    ensures made { IfOk result (λ _. HasMade (E.progress engine.old).opening trace.now.entries
        (E.progress engine.new)) }
{
    size_laws();
    let entries = remade(alloc, engine, trace.entries.as_slice())?;
    let Ok(right) = is_right_end(alloc, engine, trace.end) else {
        return Err(ReplayEnd::NoMemory);
    };
    if !right {
        return Err(ReplayEnd::NotEnd { line: entries + 1 });
    }
    let right = engine.weight();
    if !is_same(trace.weight, right) {
        let given = trace.weight;
        return Err(ReplayEnd::WrongWeight { given, right });
    }
    Ok(Replayed { entries })
}

// Makes the entries, and counts them.
fn remade<E: Engine>(alloc: Global, engine: &mut E, entries: &[Entry]) -> Result<u32, ReplayEnd>
    requires fresh { E.progress engine.old ≡ fresh (E.progress engine.old).opening }
    requires short { size (E.progress engine.old).opening + 1 < 2 ^ 32 }
    ensures { IsRemade (E.progress engine.old).opening entries.now result (E.progress engine.new) }
{
    size_laws();
    let mut count = 0;
    for entry in entries {
        let Ok(fit) = engine.step(alloc, entry) else {
            return Err(ReplayEnd::NoMemory);
        };
        match fit {
            Fit::Made => count += 1,
            _ => return Err(ReplayEnd::NotStep { line: count + 1 }),
        }
    }
    Ok(count)
}

// Whether the run may end so here.
fn is_right_end<E: Engine>(alloc: Global, engine: &mut E, end: End) -> Result<bool, NoMemory>
    requires path { HasPath (E.progress engine.old) }
    requires sound { IsSound (E.progress engine.old).opening }
    ensures right { IfOk result (λ right. IsTrue right ↔ IsRightEnd (E.progress engine.old).last
        (exponent_after (E.progress engine.old).entries (E.progress engine.old).last) end) }
    ensures same { E.progress engine.new ≡ E.progress engine.old }
{
    progress_laws();
    active_laws();
    match end {
        End::Done { left } => Ok(match engine.least(alloc)? {
            None => engine.left() == left,
            Some(_) => false,
        }),
        End::Stopped { part } => Ok(engine.is_at_limit() && engine.is_before_h(part)),
    }
}

// Whether the weights are one.
fn is_same(given: Weight, right: Weight) -> bool
    ensures { IsTrue result ↔ given ≡ right }
{
    given == right
}
