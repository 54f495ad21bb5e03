//! Callers of `cqp_pool`: workers in threads of their own, which push and steal.
#![tactic(auto)]

mod given;
mod workers;

pub use given::Given;
pub use workers::work_side_by_side;

#[cfg(test)]
mod tests;
