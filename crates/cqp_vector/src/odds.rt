//! Outcomes of measurements with their norms.

use cqp_lists::List;
use cqp_ring::Root;

/// An outcome of a measurement, with the norm of its projection.
#[derive(Clone, Copy, Debug, PartialEq, Eq)]
pub struct Odd {
    pub outcome: u32,
    pub norm: Root,
}

/// A list of outcomes with their norms.
pub type Odds = List<Odd>;
