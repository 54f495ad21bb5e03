//! Two qubits on the way to a Bell pair and to its measurement.

ghost use Rattle.std.specs.Prelude.{◌≡◌, [], ◌∷◌, Some, None, IfOk};
ghost use Rattle.cqp_group_checks.specs.Pairs.{alone, turned, both, bell, seen, AreTwo};

use cqp_groups::Groups;
use cqp_syntax::Op;
use cqp_vector::NoMemory;
use std::alloc::Global;

/// Two qubits that are 0, each by itself.
fn two_alone(alloc: Global) -> Result<Groups, NoMemory>
    ensures { IfOk result (λ groups. groups ≡ Some (alone 0) ∷ Some (alone 1) ∷ []) }
{
    let mut groups = Groups::new(alloc);
    groups.grown(alloc, 0)?;
    groups.grown(alloc, 1)?;
    Ok(groups)
}

/// The first of them after H.
fn one_turned(alloc: Global) -> Result<Groups, NoMemory>
    ensures { IfOk result (λ groups. AreTwo groups (Some turned) (Some (alone 1))) }
{
    let mut groups = two_alone(alloc)?;
    groups.gate(alloc, 0, Op::H, &[0])?;
    Ok(groups)
}

/// Both as one group.
fn two_joined(alloc: Global) -> Result<Groups, NoMemory>
    ensures { IfOk result (λ groups. AreTwo groups (Some both) None) }
{
    let mut groups = one_turned(alloc)?;
    groups.join(alloc, 0, 1)?;
    Ok(groups)
}

/// A Bell pair.
pub(crate) fn bell_pair(alloc: Global) -> Result<Groups, NoMemory>
    ensures { IfOk result (λ groups. AreTwo groups (Some bell) None) }
{
    let mut groups = two_joined(alloc)?;
    groups.gate(alloc, 0, Op::CNot, &[0, 1])?;
    Ok(groups)
}

/// A Bell pair whose first qubit was measured, with outcome 1.
pub(crate) fn measured_pair(alloc: Global) -> Result<Groups, NoMemory>
    ensures { IfOk result (λ groups. AreTwo groups (Some seen) None) }
{
    let mut groups = bell_pair(alloc)?;
    groups.measured(alloc, 0, &[0], 1)?;
    Ok(groups)
}
