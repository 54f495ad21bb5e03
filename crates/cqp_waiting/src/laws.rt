//! Laws of parts that wait. The call does nothing, and its contract is the laws.

ghost use Rattle.cqp_waiting.specs.Waiting.{OneListLaw, WaitingLaw};

/// After a run from a process each part that waits stands ready at its channel, at an output
/// exactly where the channel's parts do, and once in its list; it is in no other channel's list.
/// `ready` counts all other parts that live.
pub fn waiting_laws()
    ensures waiting { WaitingLaw }
    ensures one_list { OneListLaw }
{}
