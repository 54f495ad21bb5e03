//! Laws of places. The call does nothing, and its contract is the laws.

ghost use Rattle.cqp_places.specs.Laws.{BitLaw, OneLaw, WithinLaw, ZeroLaw};

/// The place of a list of qubits, in a place of all qubits, is within as many places; a qubit's bit
/// is that of its index there; and a bit that is put for it is put there.
pub fn place_laws()
    ensures within { WithinLaw }
    ensures bit { BitLaw }
    ensures zero { ZeroLaw }
    ensures one { OneLaw }
{}
