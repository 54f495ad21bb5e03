//! The contract of a run in one place: which part is next, what it does, and entries that are
//! tried. Contracts see how far the run has come, as its `Progress`.

ghost use Rattle.std.specs.Prelude.{◌≡◌, ◌↔◌, IsSome, IsTrue, IfOk, OnErr, length};
ghost use Rattle.cqp_ring.specs.Weight.{IsLeast};
ghost use Rattle.cqp_cells.specs.Config.{part_at};
ghost use Rattle.cqp_cells.specs.Lawful.{IsBeforeH, exponent_after};
ghost use Rattle.cqp_cells.specs.Probability.{IsProbability};
ghost use Rattle.cqp_cells.specs.Step.{next};
ghost use Rattle.cqp_cells.specs.Waiting.{CanGoOn};
ghost use Rattle.cqp_paths.specs.Follows.{measure_total};
ghost use Rattle.cqp_engine.specs.Progress.{Progress, HasPath, IsTried};
ghost use Rattle.cqp_engine.specs.Upcoming.{AreOddsOf, IsLeastOrStuck, IsLeastPart, IsMeasuring};
ghost use Rattle.cqp_engine.specs.Upcoming.{IsUpcoming};

use cqp_lists::NoMemory;
use cqp_ring::Weight;
use cqp_syntax::Names;
use cqp_trace::Entry;
use cqp_vector::Odds;
use std::alloc::Global;

/// What came of an entry that was tried: it was made, no reduction fits it, or it is an H that
/// finds the exponent at its limit.
#[derive(Clone, Copy, Debug)]
pub enum Fit {
    Made,
    NoStep,
    AtLimit,
}

/// What a part does next: an entry, or a measurement, of which an outcome is to be chosen.
#[derive(Debug, Drop)]
pub enum Upcoming {
    Entry { entry: Entry },
    Measurement { qubits: Names },
}

/// The run of a process in one place. It has the process, the entries that were made, and the
/// configuration to which they lead. What takes no allocator takes no memory.
pub trait Engine {
    ghost progress: { Self → Progress };

    /// The least part that takes part in a reduction.
    fn least(&mut self, alloc: Global) -> Result<Option<u32>, NoMemory>
        ensures least { IfOk result (λ part. IsLeastOrStuck (progress self.old).last part) }
        ensures same { progress self.new ≡ progress self.old };

    /// The turn of the next measurement: how many were made.
    fn turn(&self) -> u64
        ensures { result ≡ measure_total (progress self.now).entries };

    /// How many parts are left.
    fn left(&self) -> u32
        ensures { result ≡ length (progress self.now).last.parts };

    /// What the least part does next. A communication is with its least partner.
    fn upcoming(&mut self, alloc: Global, part: u32) -> Result<Upcoming, NoMemory>
        requires goes { CanGoOn (progress self.old).last }
        requires least { IsLeastPart (progress self.old).last part }
        ensures next { IfOk result (λ next. IsUpcoming (progress self.old).last part next) }
        ensures same { progress self.new ≡ progress self.old };

    /// The outcomes of the measurement that the part makes next, with their odds. Groups of qubits
    /// may be joined for it, which changes no configuration.
    fn odds(&mut self, alloc: Global, part: u32, qubits: &Names) -> Result<Odds, NoMemory>
        requires { IsMeasuring (progress self.old).last part qubits.now }
        ensures odds { IfOk result (λ odds. AreOddsOf qubits.now (progress self.old).last.state
            odds) }
        ensures same { progress self.new ≡ progress self.old };

    /// Tries an entry. Where it isn't made, and without memory, nothing changes.
    fn step(&mut self, alloc: Global, entry: &Entry) -> Result<Fit, NoMemory>
        ensures fit { IfOk result (λ fit. IsTried (progress self.old) entry.now fit
            (progress self.new)) }
        ensures err { OnErr result (progress self.new ≡ progress self.old) };

    /// Tries an entry that is a reduction, so that it is made unless the exponent is at its limit.
    fn make(&mut self, alloc: Global, entry: Entry) -> Result<Fit, NoMemory>
        requires { IsSome (next (progress self.old).last entry) }
        ensures fit { IfOk result (λ fit. IsTried (progress self.old) entry fit
            (progress self.new)) }
        ensures err { OnErr result (progress self.new ≡ progress self.old) };

    /// Whether the part's next redex applies H.
    fn is_before_h(&self, part: u32) -> bool
        ensures { IsTrue result ↔ IsBeforeH (part_at part (progress self.now).last.parts) };

    /// Whether the exponent is at its limit, 90.
    fn is_at_limit(&self) -> bool
        requires { HasPath (progress self.now) }
        ensures { IsTrue result
            ↔ (exponent_after (progress self.now).entries (progress self.now).last ≡ 90) };

    /// The probability of the entries so far, in least form.
    fn weight(&self) -> Weight
        requires { HasPath (progress self.now) }
        ensures least { IsLeast result }
        ensures is { IsProbability (progress self.now).opening (progress self.now).entries result };
}
