//! Replay: whether a trace is one of a checked process.

ghost use Rattle.std.specs.Prelude.{IfOk};
ghost use Rattle.cqp_syntax.specs.Listing.{root};
ghost use Rattle.cqp_trace.specs.Writable.{IsWritable};
ghost use Rattle.cqp_engine.specs.Replays.{IsReplayed};

use crate::numbers::{end_in_range, entries_in_range};
use crate::process::process_laws;
use cqp_engine::{ReplayEnd, Replayed, replay as replay_engine};
use cqp_stepper::Stepper;
use cqp_trace::Trace;
use cqp_types::Typed;
use std::alloc::Global;

/// Makes a trace's entries, one after another, and compares its end and its weight. `Ok` comes
/// exactly where the trace is lawful: its entries are a path of the process, in any order in which
/// they fit, the end is right after them, and the weight is the path's probability in least form.
/// Such a trace has a text. Else the first reason against it is told: `NotStep` with the line of
/// the first entry that continues no path, as an H at the limit of the exponent; `NotEnd` with the
/// line of the end; `WrongWeight` with the given weight and the right one. It takes time that grows
/// with the process's nodes and the entries, and with the numerators that these touch.
pub fn replay(alloc: Global, typed: &Typed, trace: &Trace) -> Result<Replayed, ReplayEnd>
    ensures replayed { IsReplayed (root typed.now) trace.now result }
    ensures writable { IfOk result (λ _. IsWritable trace.now) }
{
    process_laws(typed);
    let Ok(mut stepper) = Stepper::start(alloc, typed) else {
        return Err(ReplayEnd::NoMemory);
    };
    let replayed = replay_engine(alloc, &mut stepper, trace)?;
    entries_in_range(trace.entries.as_slice());
    end_in_range(trace.end);
    stepper.weighed();
    Ok(replayed)
}
