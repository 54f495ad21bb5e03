//! Laws of parts that stand, for proofs in the crates above. Each call does nothing, and its
//! contract is the laws.

ghost use Rattle.cqp_standing.specs.Laws.{DeedsStand, OpeningStands, ReceiversStand};
ghost use Rattle.cqp_standing.specs.Laws.{SendsLaw, SuitsLaw, TakesLaw};

/// The parts of the opening stand, and so do the parts in the place of one that stands, after a
/// deed that suits its process and behind an input that takes the values.
pub fn standing_laws()
    ensures opening { OpeningStands }
    ensures deeds { DeedsStand }
    ensures receivers { ReceiversStand }
{}

/// A deed that moves a process suits it, so does a communication the sender, and the receiver takes
/// its values.
pub fn suit_laws()
    ensures suits { SuitsLaw }
    ensures sends { SendsLaw }
    ensures takes { TakesLaw }
{}
