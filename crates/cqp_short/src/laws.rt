//! Laws of how long runs are. The call does nothing, and its contract is the laws.

ghost use Rattle.cqp_short.specs.Bounds.{CountsLaw, PartsLaw};
ghost use Rattle.cqp_short.specs.Spent.{PayingLaw, RoomLaw, ShortLaw};

/// Each event of a run is paid by what is left of the process, so that of a process that needs at
/// most 12 qubits there are at most 13 for each node that may be reduced, and one that stops the
/// run: a book with that much room has some wherever an event is enabled. Parts that were made,
/// with the parallel compositions that are left, are at most one more than the process's. Where an
/// event is enabled no count passes 65,536, and no more parts end than are ready and woken.
pub fn short_laws()
    ensures paid { PayingLaw }
    ensures short { ShortLaw }
    ensures room { RoomLaw }
    ensures parts { PartsLaw }
    ensures counts { CountsLaw }
{}
