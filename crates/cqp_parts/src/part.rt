//! Parts. Contracts see a `Vals` as the list of its values.

use crate::bind::Env;
use cqp_lists::List;
use cqp_syntax::Val;

/// The values of redexes.
pub type Vals = List<Val>;

/// A part stands at a prefix of the process. `env` has the values of the names that are free there,
/// and `vals` those of the prefix's redexes that were reduced already, in evaluation order.
#[derive(Debug, Drop)]
pub struct Part {
    pub node: u32,
    pub env: Env,
    pub vals: Vals,
}
