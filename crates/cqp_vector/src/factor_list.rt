//! Lists of factors.

use crate::factor::Factor;
use cqp_lists::List;

/// A list of factors.
pub type FactorList = List<Factor>;
