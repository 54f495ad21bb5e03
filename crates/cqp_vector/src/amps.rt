//! Lists of numerators.

use cqp_lists::List;
use cqp_ring::Amp;

/// A list of numerators.
pub type Amps = List<Amp>;

/// The numerator 0.
pub(crate) const ZERO: Amp = Amp {
    a: 0,
    b: 0,
    c: 0,
    d: 0,
};

/// The numerator 1.
pub(crate) const ONE: Amp = Amp {
    a: 1,
    b: 0,
    c: 0,
    d: 0,
};
