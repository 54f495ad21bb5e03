//! Values of names. Contracts see an `Env` as the list of its bindings.

use cqp_lists::List;
use cqp_syntax::Val;

/// A value that a name has.
#[derive(Clone, Copy, Debug)]
pub struct Bind {
    pub name: u32,
    pub val: Val,
}

/// The values that names have.
pub type Env = List<Bind>;
