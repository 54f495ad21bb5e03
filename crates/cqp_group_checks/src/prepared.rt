//! Changes that take no memory, over places that were found before, worked out by hand.

ghost use Rattle.std.specs.Prelude.{◌≡◌, [], ◌∷◌, Some, None, IfOk};
ghost use Rattle.cqp_group_checks.specs.Pairs.{bell, flipped, AreTwo};
ghost use Rattle.cqp_groups.specs.Groups.{ArePlacesOf};

use crate::pairs::bell_pair;
use crate::told::odd;
use cqp_groups::Groups;
use cqp_syntax::{Names, Op};
use cqp_vector::NoMemory;
use std::alloc::Global;
use std::test::Fail;

/// A Bell pair after X on the second qubit.
fn flipped_pair(alloc: Global) -> Result<Groups, NoMemory>
    ensures { IfOk result (λ groups. AreTwo groups (Some flipped) None) }
{
    let mut groups = bell_pair(alloc)?;
    let places = groups.places(alloc, 0, &[1])?;
    groups.gate_at(0, Op::X, places.as_slice());
    Ok(groups)
}

/// The first two qubits.
fn both_qubits(alloc: Global) -> Result<Names, NoMemory>
    ensures { IfOk result (λ names. names ≡ 0 ∷ 1 ∷ []) }
{
    Ok(Names::from_vec(vec![in alloc; 0, 1]?))
}

#[test]
fn a_flipped_pair_has_the_other_outcomes(rt: HostRuntime) -> Result<(), Fail> {
    let alloc = rt.alloc();
    let groups = flipped_pair(alloc)?;
    let odds = groups.odds(alloc, 0, &[0, 1])?;
    assert_eq!(rt; odds.as_slice(), [odd(1, 1), odd(2, 1)].as_slice());
    Ok(())
}

#[test]
fn both_qubits_are_measured_and_due(rt: HostRuntime) -> Result<(), Fail> {
    let alloc = rt.alloc();
    let mut groups = bell_pair(alloc)?;
    let qubits = both_qubits(alloc)?;
    let places = groups.places(alloc, 0, &[0, 1])?;
    let possible = groups.has_outcome(0, places.as_slice(), 3);
    let other = groups.has_outcome(0, places.as_slice(), 2);
    assert!(rt; possible && !other);
    groups.measured_at(0, qubits, places.as_slice(), 3);
    assert!(rt; groups.has_due(0));
    Ok(())
}
