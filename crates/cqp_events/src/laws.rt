//! Laws of the events of a run in one place, for proofs in the crates above. The calls do nothing,
//! and their contracts are the laws.

ghost use Rattle.cqp_events.specs.Laws.{EventLaw, JoinLaw, MeetingLaw, OpeningLaw, OwnLaw, SplitLaw};

/// An event that fits the cells after a run is enabled there, whatever else the cells have, and
/// goes on with the run.
pub fn event_laws()
    ensures { EventLaw }
{}

/// A run in which nobody waits in a channel stays so by a deed of one part, by a communication,
/// which is two events, and by joins and splits of groups. The opening is such a run.
pub fn settled_laws()
    ensures opening { OpeningLaw }
    ensures own { OwnLaw }
    ensures meeting { MeetingLaw }
    ensures join { JoinLaw }
    ensures split { SplitLaw }
{}
