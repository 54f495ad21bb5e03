//! The place of a list of qubits in the place of all qubits, and sums over their bits.
#![tactic(auto)]

mod laws;

pub use laws::place_laws;
