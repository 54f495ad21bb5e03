//! The choosers of the command line.

ghost use Rattle.std.specs.Prelude.{◌≡◌, IfOk};
ghost use Rattle.cqp_choose.specs.Odds.{IsLawful};
ghost use Rattle.cqp_choose.specs.Picks.{IsBornIndex, script_index, seed_index};
ghost use Rattle.cqp_choose.specs.Word.{turn_word};
ghost use Rattle.cqp_syntax.specs.Listing.{root};
ghost use Rattle.cqp_trace.specs.Writable.{IsWritable};
ghost use Rattle.cqp_paths.specs.Runs.{IsPlainRun};
ghost use Rattle.cqp_words.specs.declared.choice.Choice.TheVariants as by;
ghost use Rattle.cqp_stepper.specs.Factors.{AreFactorsAfter};
ghost use Rattle.cqp_plain.specs.Choices.{pick_of, script_picks, seed_picks, born_picks};

use crate::run::{Run, plain_run};
use cqp_choose::{Kept, born_pick, script_pick, seed_pick};
use cqp_lists::NoMemory;
use cqp_ring::Root;
use cqp_types::Typed;
use cqp_words::Choice;
use std::alloc::Global;

/// Runs a process to its end, in plain order, with the outcomes that are chosen so.
pub fn chosen_run(alloc: Global, typed: &Typed, choice: &Choice) -> Result<Run, NoMemory>
    ensures run { IfOk result (λ run. IsPlainRun (pick_of choice.now) (root typed.now) run.trace) }
    ensures factors { IfOk result (λ run. AreFactorsAfter (root typed.now) run.trace.entries
        run.factors) }
    ensures writable { IfOk result (λ run. IsWritable run.trace) }
{
    match choice {
        Choice::Script { numbers } => by_script(alloc, typed, numbers.as_slice()),
        Choice::Seed { seed } => by_seed(alloc, typed, *seed),
        Choice::Born { seed } => by_born(alloc, typed, *seed),
    }
}

// By the numbers of a script.
fn by_script(alloc: Global, typed: &Typed, script: &[u32]) -> Result<Run, NoMemory>
    ensures run { IfOk result (λ run. IsPlainRun (script_picks script.now) (root typed.now)
        run.trace) }
    ensures factors { IfOk result (λ run. AreFactorsAfter (root typed.now) run.trace.entries
        run.factors) }
    ensures writable { IfOk result (λ run. IsWritable run.trace) }
{
    let chooser = Kept::new(
        |turn: u64, odds: &[Root]| -> u64
            requires { IsLawful odds.now }
            ensures { result ≡ script_index script.entry.now turn odds.now }
        { script_pick(script, turn, odds) },
    );
    plain_run(alloc, typed, &chooser)
}

// By the words of a seed.
fn by_seed(alloc: Global, typed: &Typed, seed: u64) -> Result<Run, NoMemory>
    ensures run { IfOk result (λ run. IsPlainRun (seed_picks seed) (root typed.now) run.trace) }
    ensures factors { IfOk result (λ run. AreFactorsAfter (root typed.now) run.trace.entries
        run.factors) }
    ensures writable { IfOk result (λ run. IsWritable run.trace) }
{
    let chooser = Kept::new(
        |turn: u64, odds: &[Root]| -> u64
            requires { IsLawful odds.now }
            ensures { result ≡ seed_index seed turn odds.now }
        { seed_pick(seed, turn, odds) },
    );
    plain_run(alloc, typed, &chooser)
}

// By Born's rule with the words of a seed.
fn by_born(alloc: Global, typed: &Typed, seed: u64) -> Result<Run, NoMemory>
    ensures run { IfOk result (λ run. IsPlainRun (born_picks seed) (root typed.now) run.trace) }
    ensures factors { IfOk result (λ run. AreFactorsAfter (root typed.now) run.trace.entries
        run.factors) }
    ensures writable { IfOk result (λ run. IsWritable run.trace) }
{
    let chooser = Kept::new(
        |turn: u64, odds: &[Root]| -> u64
            requires { IsLawful odds.now }
            ensures { IsBornIndex (turn_word seed turn) odds.now result }
        { born_pick(seed, turn, odds) },
    );
    plain_run(alloc, typed, &chooser)
}
