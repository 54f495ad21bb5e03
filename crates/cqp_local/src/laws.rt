//! Laws of an event and the cells that it sees. The call does nothing, and its contract is the
//! laws.

ghost use Rattle.cqp_book.specs.Laws.{IsLocal, LeavesOthers};
ghost use Rattle.cqp_local.specs.Laws.{WholeLaw};
ghost use Rattle.cqp_machine.specs.Machine.{factored};

/// Whether an event is enabled, and the cells that it leaves at the keys that it touches, depend on
/// the cells that it needs alone, and it changes no other cell. An event that is enabled on what it
/// sees is enabled on all cells, and leaves what it makes of all cells.
pub fn local_laws()
    ensures local { IsLocal factored }
    ensures others { LeavesOthers factored }
    ensures whole { WholeLaw }
{}
