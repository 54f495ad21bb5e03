//! Laws of parts, for proofs in the crates above. The call does nothing, and its contract is the
//! law.

ghost use Rattle.cqp_parts.specs.Laws.{OpeningLaw, OwnDeedLaw, ReceiverLaw, SenderLaw};

/// The parts of the opening stand for the processes side by side in the process, and the parts in
/// the place of a part for those side by side in what its process becomes: by a deed of its own,
/// behind an output, and behind an input with the values that it receives.
pub fn deed_laws()
    ensures opening { OpeningLaw }
    ensures own { OwnDeedLaw }
    ensures sender { SenderLaw }
    ensures receiver { ReceiverLaw }
{}
