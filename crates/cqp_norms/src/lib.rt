//! What is done to a group of qubits is done to the whole state, and the norm of the whole is the
//! product of the groups' norms.
#![tactic(auto)]

mod laws;

pub use laws::state_laws;
