//! A run of a checked process to its end.

ghost use Rattle.std.specs.Prelude.{IfOk};
ghost use Rattle.cqp_choose.specs.Chooses.{Chooses};
ghost use Rattle.cqp_syntax.specs.Listing.{root};
ghost use Rattle.cqp_trace.specs.Writable.{IsWritable};
ghost use Rattle.cqp_paths.specs.Runs.{IsPlainRun};
ghost use Rattle.cqp_engine.specs.PlainRuns.{answers_of};
ghost use Rattle.cqp_stepper.specs.Factors.{AreFactorsAfter};

use crate::numbers::{end_in_range, entries_in_range};
use crate::process::process_laws;
use cqp_choose::Kept;
use cqp_engine::{Ended, plain_run as run_engine};
use cqp_lists::NoMemory;
use cqp_ring::Root;
use cqp_stepper::Stepper;
use cqp_trace::Trace;
use cqp_types::Typed;
use cqp_vector::FactorList;
use std::alloc::Global;

/// A run that came to its end, and the factors of the state to which its entries lead.
#[derive(Debug, Drop)]
pub struct Run {
    pub trace: Trace,
    pub factors: FactorList,
}

/// Runs a process to its end, in plain order. The function is asked for the index of each outcome.
/// Want of memory is the one error.
pub fn plain_run<F: Fn(u64, &[Root]) -> u64>(
    alloc: Global,
    typed: &Typed,
    chooser: &Kept<F>,
) -> Result<Run, NoMemory>
    requires kept { Chooses (F.pre chooser.now) (F.post chooser.now) }
    ensures run { IfOk result (λ run. IsPlainRun (answers_of (F.post chooser.now)) (root typed.now)
        run.trace) }
    ensures factors { IfOk result (λ run. AreFactorsAfter (root typed.now) run.trace.entries
        run.factors) }
    ensures writable { IfOk result (λ run. IsWritable run.trace) }
{
    process_laws(typed);
    let mut stepper = Stepper::start(alloc, typed)?;
    let Ended { end, weight } = run_engine(alloc, &mut stepper, chooser)?;
    stepper.weighed();
    let (entries, factors) = stepper.into_parts(alloc)?;
    entries_in_range(entries.as_slice());
    end_in_range(end);
    let trace = Trace {
        entries,
        end,
        weight,
    };
    Ok(Run { trace, factors })
}
