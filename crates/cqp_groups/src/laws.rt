//! Laws of the groups of a run, for proofs in the crates above. Each call does nothing, and its
//! contract is the laws.

ghost use Rattle.cqp_groups.specs.RunLaws.{DueLaw, ExponentLaw, GateLaw, GrowLaw, HeldLaw};
ghost use Rattle.cqp_groups.specs.RunLaws.{MeasureLaw, NextLaw, NormLaw, OpenLaw, PairLaw};
ghost use Rattle.cqp_groups.specs.RunLaws.{SmallLaw, StateLaw, SumLaw};

/// At the opening there is no group. After an event, a list with the groups that it leaves is again
/// that of the run. Along the run the groups stand for the state that its entries lead to, and each
/// qubit that was made is in exactly one of them.
pub fn run_laws()
    ensures open { OpenLaw }
    ensures next { NextLaw }
    ensures state { StateLaw }
    ensures held { HeldLaw }
{}

/// An event that is enabled meets what the call for it asks.
pub fn call_laws()
    ensures grow { GrowLaw }
    ensures gate { GateLaw }
    ensures measure { MeasureLaw }
    ensures pair { PairLaw }
    ensures due { DueLaw }
{}

/// The sum of the levels is the front's, at most 180, and the product of the norms is within 2 to
/// the sum of the exponents. Where at most 12 qubits were made, that sum is at most 96, and the
/// products of the norms fit.
pub fn sum_laws()
    ensures levels { SumLaw }
    ensures exponents { ExponentLaw }
    ensures norms { NormLaw }
    ensures small { SmallLaw }
{}
