//! Laws of turns, for proofs in the crates above. The call does nothing, and its contract is the
//! laws.

ghost use Rattle.cqp_turn_laws.specs.Laws.{MovesLaw, SomeQubitsLaw, TurnLaw};

/// A part that stands and has no wrong operand has a turn, and its process moves by the deeds of
/// its turn. A measurement is of at least one qubit.
pub fn turn_laws()
    ensures turn { TurnLaw }
    ensures moves { MovesLaw }
    ensures some { SomeQubitsLaw }
{}
