//! Lists of numbers, by their names in this project.

use cqp_lists::List;

/// A list of bytes.
pub type Bytes = List<u8>;

/// A list of 64-bit numbers.
pub type Numbers = List<u64>;
