//! Reductions of processes: configurations, paths, lawful traces, and laws of exponents, of paths
//! and of their weights. Each call does nothing, and its contract is the law.
#![tactic(auto)]

mod examples;
mod laws;
mod limits;

pub use laws::{exponent_laws, path_laws, weight_laws};
