//! A call outside that failed. Contracts see it as its one value.

/// A call of a source or a sink failed, for whatever cause.
#[derive(Clone, Copy, Debug, Eq, PartialEq)]
pub struct Failed;
