//! The faults of scope, and the least of those that were met.

ghost use Rattle.std.specs.Prelude.{◌≡◌};
ghost use Rattle.cqp_expand.specs.Least.{rank, precedes};
ghost use Rattle.cqp_expand.specs.Kept.{kept};

/// The kinds of faults, in the order in which they are told at one offset.
#[derive(Clone, Copy, Debug, PartialEq, Eq)]
pub enum FaultKind {
    Unbound,
    UnknownDef,
    Arity,
    Twice,
    ParamType,
}

/// A fault, with the offset that it is told by.
#[derive(Clone, Copy, Debug, PartialEq, Eq)]
pub struct ScopeFault {
    pub at: u32,
    pub kind: FaultKind,
}

/// The place of a kind in their order.
fn rank(kind: FaultKind) -> u32
    ensures { result ≡ rank kind }
{
    match kind {
        FaultKind::Unbound => 0,
        FaultKind::UnknownDef => 1,
        FaultKind::Arity => 2,
        FaultKind::Twice => 3,
        FaultKind::ParamType => 4,
    }
}

/// Whether a fault comes before another.
fn precedes(left: ScopeFault, right: ScopeFault) -> bool
    ensures { result ≡ precedes left right }
{
    left.at < right.at || left.at == right.at && rank(left.kind) < rank(right.kind)
}

/// The lesser of the least fault so far and one more.
pub(crate) fn lesser(least: Option<ScopeFault>, fault: ScopeFault) -> ScopeFault
    ensures { result ≡ kept least fault }
{
    match least {
        Some(first) if !precedes(fault, first) => first,
        _ => fault,
    }
}
