//! Laws of entries that are tried, of what is upcoming, of ends and of replay's answers. Each call
//! does nothing, and its contract is the law.

ghost use Rattle.std.specs.Prelude.{◌≡◌, ◌≢◌, ℕ, length};
ghost use Rattle.cqp_syntax.specs.Trees.{Process};
ghost use Rattle.cqp_trace.specs.declared.end.End.{End};
ghost use Rattle.cqp_trace.specs.declared.end.End.TheVariants as end;
ghost use Rattle.cqp_trace.specs.declared.entry.Entry.{Entry};
ghost use Rattle.cqp_trace.specs.declared.trace.Trace.{Trace};
ghost use Rattle.cqp_cells.specs.Config.{Config};
ghost use Rattle.cqp_cells.specs.Lawful.{IsLawful, IsRightEnd};
ghost use Rattle.cqp_cells.specs.Order.{IsLeastActive, StopsPlainly};
ghost use Rattle.cqp_cells.specs.Step.{ReductionIsLeft};
ghost use Rattle.cqp_cells.specs.Waiting.{CanGoOn};
ghost use Rattle.cqp_engine.specs.declared.engine.Fit.{Fit};
ghost use Rattle.cqp_engine.specs.declared.engine.Upcoming.{Upcoming};
ghost use Rattle.cqp_engine.specs.declared.replaying.ReplayEnd.{ReplayEnd};
ghost use Rattle.cqp_engine.specs.declared.replaying.ReplayEnd.TheVariants as replayed;
ghost use Rattle.cqp_engine.specs.Progress.{Progress, IsTried};
ghost use Rattle.cqp_engine.specs.Replays.{IsRefused};
ghost use Rattle.cqp_engine.specs.Upcoming.{IsLeastPart, IsUpcoming};

use cqp_cells::weight_laws;

/// An entry that is tried has exactly one answer.
pub fn step_laws()
    ensures some { (s : Progress) (e : Entry) → (fit : Fit) × (t : Progress) × IsTried s e fit t }
    ensures one { (s t u : Progress) (e : Entry) (f g : Fit) → IsTried s e f t → IsTried s e g u
        → (f ≡ g) × (t ≡ u) }
{}

/// Where what can go on does, something is upcoming of the least part.
pub fn upcoming_laws()
    ensures { (c : Config) (i : ℕ) → CanGoOn c → IsLeastPart c i
        → (next : Upcoming) × IsUpcoming c i next }
{}

/// Where no reduction is left, a plain run ends with `done`, and else with `stopped` and the least
/// part that takes part in one. That each of these ends is right there, and in no other case, is
/// what `IsRightEnd` and `StopsPlainly` say.
pub fn end_laws()
    ensures done { (c : Config) (h : ℕ) (e : End) → IsRightEnd c h e → StopsPlainly c e
        → (ReductionIsLeft c → ⊥) → e ≡ end.Done (length c.parts) }
    ensures stopped { (c : Config) (h : ℕ) (e : End) (i : ℕ) → IsRightEnd c h e
        → StopsPlainly c e → IsLeastActive c i → e ≡ end.Stopped i }
{}

/// A lawful trace is refused for no reason but want of memory, and any other trace for one alone.
/// So each answer of `replay` with memory comes exactly where its clause holds.
pub fn replay_laws()
    ensures lawful { (p : Process) (t : Trace) (e : ReplayEnd) → e ≢ replayed.NoMemory
        → IsRefused p t e → IsLawful p t → ⊥ }
    ensures one { (p : Process) (t : Trace) (e f : ReplayEnd) → e ≢ replayed.NoMemory
        → f ≢ replayed.NoMemory → IsRefused p t e → IsRefused p t f → e ≡ f }
{
    weight_laws();
}
