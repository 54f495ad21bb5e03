//! Laws of the factored machine. The call does nothing, and its contract is the laws.

ghost use Rattle.cqp_book.specs.Laws.{IsLawful};
ghost use Rattle.cqp_fresh.specs.Apart.{ApartLaw};
ghost use Rattle.cqp_machine.specs.Machine.{factored};

/// The factored machine meets the laws of the book: an event depends on the cells that it needs
/// alone, changes those that it touches alone, and after a run makes no key that is live. After a
/// run no two groups share a qubit, each is named by one of its own, and each was made.
pub fn machine_laws()
    ensures lawful { IsLawful factored }
    ensures apart { ApartLaw }
{}
