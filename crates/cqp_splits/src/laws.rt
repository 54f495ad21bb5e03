//! The law of splits. The call does nothing, and its contract is the law.

ghost use Rattle.cqp_splits.specs.Laws.{SplitLaw};

/// Where groups stand for a state, they do so after the due qubits of one have left it.
pub fn split_state_laws()
    ensures { SplitLaw }
{}
