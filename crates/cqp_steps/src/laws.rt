//! Laws of what is made along runs. The call does nothing, and its contract is the law.

ghost use Rattle.cqp_steps.specs.Making.{MakingLaw};

/// After a run the qubits that were made, with the most that what is left may need, are at most the
/// process's need, and the channels that were made, with those that are left to make, are at most
/// the process's.
pub fn making_laws()
    ensures { MakingLaw }
{}
