//! Laws of stands, for proofs in the crates above. The calls do nothing, and their contracts are
//! the laws.

ghost use Rattle.cqp_meeting.specs.Laws.{ActiveLaw, AloneLaw, FitLaw, LeastLaw, OwnLaw};
ghost use Rattle.cqp_meeting.specs.Laws.{PairedLaw, PartnerLaw, RightLaw, StuckLaw};

/// Where a table tells the stands of a configuration with no wrong operand: who stands alone, who
/// is active, which communications fit, and of whom a deed of one part may. And no part of such a
/// configuration has a wrong operand.
pub fn stand_laws()
    ensures alone { AloneLaw }
    ensures active { ActiveLaw }
    ensures fits { FitLaw }
    ensures own { OwnLaw }
    ensures right { RightLaw }
{}

/// By such a table no part is active exactly where each waits and no two meet. Else the least turn
/// is that of the least part that takes part in some reduction. Where that waits, its partner is
/// the first part that it meets, and their communication fits.
pub fn least_laws()
    ensures stuck { StuckLaw }
    ensures least { LeastLaw }
    ensures paired { PairedLaw }
    ensures partner { PartnerLaw }
{}
