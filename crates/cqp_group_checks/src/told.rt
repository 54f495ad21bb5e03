//! What groups tell, worked out by hand.

use crate::pairs::{bell_pair, measured_pair};
use cqp_groups::Groups;
use cqp_ring::{Amp, Root};
use cqp_vector::{Factor, Odd};
use std::test::Fail;

/// A whole number.
fn whole(a: i128) -> Amp {
    Amp {
        a,
        b: 0,
        c: 0,
        d: 0,
    }
}

/// The numerator at a place, where there is one.
fn amp(factor: &Factor, place: usize) -> Option<Amp> {
    if place < 1usize << factor.qubits().len() {
        Some(factor.num(place))
    } else {
        None
    }
}

/// An outcome with a whole norm.
pub(crate) fn odd(outcome: u32, p: i128) -> Odd {
    let norm = Root { p, q: 0 };
    Odd { outcome, norm }
}

#[test]
fn a_bell_pair_has_two_outcomes(rt: HostRuntime) -> Result<(), Fail> {
    let alloc = rt.alloc();
    let groups = bell_pair(alloc)?;
    let odds = groups.odds(alloc, 0, &[0, 1])?;
    assert_eq!(rt; odds.as_slice(), [odd(0, 1), odd(3, 1)].as_slice());
    Ok(())
}

#[test]
fn a_bell_pair_is_one_group(rt: HostRuntime) -> Result<(), Fail> {
    let groups = bell_pair(rt.alloc())?;
    assert_eq!(rt;
        (groups.group_of(0), groups.group_of(1)),
        (Some(0), Some(0))
    );
    assert_eq!(rt; groups.group_of(2), None);
    assert_eq!(rt;
        (groups.made(), groups.level(), groups.exponents()),
        (2, 2, 1)
    );
    assert_eq!(rt; groups.norm(), Root { p: 2, q: 0 });
    assert!(rt; !groups.has_due(0) && !groups.has_due(1));
    Ok(())
}

#[test]
fn measured_qubits_split_off(rt: HostRuntime) -> Result<(), Fail> {
    let alloc = rt.alloc();
    let mut groups = measured_pair(alloc)?;
    assert!(rt; groups.has_due(0));
    groups.split(alloc, 0)?;
    assert!(rt; !groups.has_due(0));
    let factors = groups.into_factors(alloc)?;
    let [first, second] = factors.as_slice() else {
        panic!(rt; "there are not two groups")
    };
    assert!(rt; first.qubits() == [0].as_slice() && second.qubits() == [1].as_slice());
    // The rest keeps the exponent, and each is 1.
    assert_eq!(rt; (first.h(), second.h()), (0, 1));
    for piece in [first, second] {
        assert_eq!(rt;
            (amp(piece, 0), amp(piece, 1)),
            (Some(whole(0)), Some(whole(1)))
        );
    }
    Ok(())
}

#[test]
fn the_newest_qubit_is_dropped_again(rt: HostRuntime) -> Result<(), Fail> {
    let alloc = rt.alloc();
    let mut groups = Groups::new(alloc);
    groups.grown(alloc, 0)?;
    groups.grown(alloc, 1)?;
    groups.drop_last();
    assert_eq!(rt;
        (groups.made(), groups.group_of(0), groups.group_of(1)),
        (1, Some(0), None)
    );
    Ok(())
}
