//! The law of parts along runs. The call does nothing, and its contract is the law.

ghost use Rattle.cqp_stands.specs.Standing.{StandingLaw};

/// After a run from a process each part that is there stands at a prefix, with all its names bound,
/// so it may be asked for its turn.
pub fn stands_laws()
    ensures { StandingLaw }
{}
