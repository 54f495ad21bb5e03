//! The redexes of expressions, counted in evaluation order, and what results leave of them.
#![tactic(auto)]

mod laws;

pub use laws::result_laws;
