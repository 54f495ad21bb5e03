//! Laws of groups that stand for a state. The call does nothing, and its contract is the laws.

ghost use Rattle.cqp_norms.specs.Laws.{GateLaw, JoinLaw, MeasureLaw, NormLaw, QubitLaw};

/// Where groups stand for a state, a gate on one of them is the gate on the state, a projection of
/// it the state's projection, a new qubit's group the grown state, and a join changes nothing. The
/// norm of the state is the product of the groups' norms, but for the powers of root 2 that they
/// were divided by.
pub fn state_laws()
    ensures gate { GateLaw }
    ensures measurement { MeasureLaw }
    ensures qubit { QubitLaw }
    ensures join { JoinLaw }
    ensures norm { NormLaw }
{}
