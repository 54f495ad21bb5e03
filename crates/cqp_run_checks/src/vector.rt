//! Worked states, by hand. Contracts of the helpers keep the numbers of qubits alone.

ghost use Rattle.std.specs.Prelude.{◌≡◌, [], ◌∷◌, ◌++◌, ◌+◌, ◌<◌, ◌≤◌, length, true, IfOk, OnOk};
ghost use Rattle.cqp_syntax.specs.Gates.{places_of};
ghost use Rattle.cqp_syntax.specs.Lists.{is_distinct};
ghost use Rattle.cqp_vector.specs.Places.{ArePlaces};

use crate::ring::whole;
use cqp_ring::{Amp, Root};
use cqp_syntax::Op;
use cqp_vector::{Factor, FactorList, NoMemory, Odd, Vector, outcome_laws};
use std::alloc::Global;
use std::test::Fail;

/// The numerator at a place, where there is one.
fn amp(factor: &Factor, place: usize) -> Option<Amp> {
    if place < 1usize << factor.qubits().len() {
        Some(factor.num(place))
    } else {
        None
    }
}

/// Applies a gate, where H has room.
fn turn(factor: &mut Factor, op: Op, places: &[u32])
    requires places { ArePlaces (length factor.old.qubits) places.now }
    requires count { length places.now ≡ places_of op }
    ensures { factor.new.qubits ≡ factor.old.qubits }
{
    if factor.h() < 90 {
        factor.gate(op, places);
    }
}

/// A qubit that is 0.
fn one(alloc: Global, q: u32) -> Result<Factor, Fail>
    ensures { IfOk result (λ f. f.qubits ≡ q ∷ []) }
{
    Ok(Factor::make(alloc, q)?)
}

/// Both factors as one, where the levels allow it.
fn both(alloc: Global, left: Factor, right: Factor) -> Result<Factor, Fail>
    requires apart { is_distinct (left.qubits ++ right.qubits) ≡ true }
    requires few { length left.qubits + length right.qubits ≤ 12 }
    ensures { IfOk result (λ f. f.qubits ≡ left.qubits ++ right.qubits) }
{
    if 180 < left.level() + right.level() {
        return Err(Fail::from("the levels are too high"));
    }
    Ok(Factor::join(alloc, left, right)?)
}

/// A qubit after H and another gate, so many times.
fn after_pairs(alloc: Global, q: u32, gate: Op, times: u32) -> Result<Factor, Fail>
    requires { places_of gate ≡ 1 }
    ensures { IfOk result (λ f. f.qubits ≡ q ∷ []) }
{
    let mut factor = one(alloc, q)?;
    for _ in 0..times {
        turn(&mut factor, Op::H, &[0]);
        turn(&mut factor, gate, &[0]);
    }
    Ok(factor)
}

/// The pieces after a measurement with the first, second, .. of the outcomes that are told.
fn measured(
    alloc: Global,
    factor: Factor,
    places: &[u32],
    choice: usize,
) -> Result<FactorList, Fail>
    requires places { ArePlaces (length factor.qubits) places.now }
    requires some { 0 < length places.now }
{
    outcome_laws();
    let mut factor = factor;
    let odds = factor.odds(alloc, places)?;
    if odds.len() <= choice {
        return Err(Fail::from("there are fewer outcomes"));
    }
    let outcome = odds.as_slice()[choice].outcome;
    factor.project(places, outcome);
    Ok(factor.split(alloc, places, outcome)?)
}

fn odd(outcome: u32, p: i128) -> Odd {
    let norm = Root { p, q: 0 };
    Odd { outcome, norm }
}

#[test]
fn a_bell_pair_has_two_outcomes(rt: HostRuntime) -> Result<(), Fail> {
    let alloc = rt.alloc();
    let mut left = one(alloc, 0)?;
    turn(&mut left, Op::H, &[0]);
    let right = one(alloc, 1)?;
    let mut pair = both(alloc, left, right)?;
    turn(&mut pair, Op::CNot, &[0, 1]);
    for (k, a) in [1, 0, 0, 1].into_iter().enumerate() {
        assert_eq!(rt; amp(&pair, k), Some(whole(a)));
    }
    assert_eq!(rt; (pair.h(), pair.level()), (1, 2));
    assert_eq!(rt; pair.norm(), Root { p: 2, q: 0 });
    let odds = pair.odds(alloc, &[0, 1])?;
    assert_eq!(rt; odds.as_slice(), [odd(0, 1), odd(3, 1)].as_slice());

    // With outcome 3 the first qubit keeps the exponent, and each has 0 and 1.
    let pieces = measured(alloc, pair, &[0, 1], 1)?;
    let [first, second] = pieces.as_slice() else {
        panic!(rt; "there are not two pieces")
    };
    assert_eq!(rt;
        (first.qubits(), second.qubits()),
        ([0].as_slice(), [1].as_slice())
    );
    assert_eq!(rt; (first.h(), second.h()), (1, 0));
    for piece in [first, second] {
        assert_eq!(rt;
            (amp(piece, 0), amp(piece, 1)),
            (Some(whole(0)), Some(whole(1)))
        );
    }
    Ok(())
}

#[test]
fn many_h_stay_least_and_h_with_t_do_not(rt: HostRuntime) -> Result<(), Fail> {
    let alloc = rt.alloc();
    let factor = after_pairs(alloc, 7, Op::I, 90)?;
    assert_eq!(rt; (factor.h(), factor.level()), (0, 0));
    let factor = after_pairs(alloc, 7, Op::I, 91)?;
    assert_eq!(rt; (factor.h(), factor.level()), (1, 2));
    assert_eq!(rt;
        (amp(&factor, 0), amp(&factor, 1)),
        (Some(whole(1)), Some(whole(1)))
    );

    // Each pair but the first adds one to the level.
    let factor = after_pairs(alloc, 7, Op::T, 177)?;
    assert_eq!(rt; (factor.h(), factor.level()), (89, 178));
    assert_eq!(rt; factor.norm(), Root { p: 1 << 89, q: 0 });
    Ok(())
}

/// Three qubits, whose numerators are w to the 0, 4, 2, 6, 1, 5, 3 and 7, over root 2 to the 3.
fn powers_of_w(alloc: Global) -> Result<Factor, Fail>
    ensures { IfOk result (λ f. length f.qubits ≡ 3) }
{
    let first = after_pairs(alloc, 5, Op::T, 1)?;
    let second = after_pairs(alloc, 3, Op::S, 1)?;
    let third = after_pairs(alloc, 8, Op::Z, 1)?;
    let two = both(alloc, first, second)?;
    both(alloc, two, third)
}

/// The power of w, or 0 in the place of the power 8.
fn power_of_w(power: usize) -> Amp {
    let mut parts = [0; 5];
    parts[if power < 8 { power % 4 } else { 4 }] = if power < 4 { 1 } else { -1 };
    Amp {
        a: parts[0],
        b: parts[1],
        c: parts[2],
        d: parts[3],
    }
}

/// Whether a gate makes these powers of w of the three qubits, over root 2 to the `h`.
fn gives(alloc: Global, op: Op, places: &[u32], powers: [usize; 8], h: u32) -> Result<bool, Fail>
    requires places { ArePlaces 3 places.now }
    requires count { length places.now ≡ places_of op }
{
    let mut factor = powers_of_w(alloc)?;
    turn(&mut factor, op, places);
    for (k, power) in powers.into_iter().enumerate() {
        if amp(&factor, k) != Some(power_of_w(power)) {
            return Ok(false);
        }
    }
    Ok(factor.h() == h)
}

#[test]
fn each_gate_reaches_these_numerators(rt: HostRuntime) -> Result<(), Fail> {
    let alloc = rt.alloc();
    assert!(rt; gives(alloc, Op::I, &[1], [0, 4, 2, 6, 1, 5, 3, 7], 3)?);
    assert!(rt; gives(alloc, Op::X, &[2], [4, 0, 6, 2, 5, 1, 7, 3], 3)?);
    assert!(rt; gives(alloc, Op::Y, &[0], [7, 3, 1, 5, 2, 6, 4, 0], 3)?);
    assert!(rt; gives(alloc, Op::Z, &[0], [0, 4, 2, 6, 5, 1, 7, 3], 3)?);
    // H undoes H, and 8 stands for 0.
    assert!(rt; gives(alloc, Op::H, &[2], [8, 0, 8, 2, 8, 1, 8, 3], 2)?);
    assert!(rt; gives(alloc, Op::S, &[0], [0, 4, 2, 6, 3, 7, 5, 1], 3)?);
    assert!(rt; gives(alloc, Op::T, &[0], [0, 4, 2, 6, 2, 6, 4, 0], 3)?);
    assert!(rt; gives(alloc, Op::CNot, &[1, 0], [0, 4, 3, 7, 1, 5, 2, 6], 3)?);
    assert!(rt; gives(alloc, Op::CZ, &[0, 1], [0, 4, 2, 6, 1, 5, 7, 3], 3)?);
    assert!(rt; gives(alloc, Op::Swap, &[0, 2], [0, 1, 2, 3, 4, 5, 6, 7], 3)?);
    assert!(rt; gives(alloc, Op::Toffoli, &[1, 2, 0], [0, 4, 2, 7, 1, 5, 3, 6], 3)?);
    Ok(())
}

/// The state of two qubits after two gates, each H or else X on a qubit.
fn after_two(alloc: Global, first: (Op, u32), second: (Op, u32)) -> Result<Vector, NoMemory>
    requires first { first.1 < 2 }
    requires second { second.1 < 2 }
{
    let mut vector = Vector::start(alloc)?;
    vector.grow(alloc)?;
    vector.grow(alloc)?;
    apply(alloc, &mut vector, first.0, first.1)?;
    apply(alloc, &mut vector, second.0, second.1)?;
    Ok(vector)
}

/// Applies H to a qubit, or X where the gate isn't H.
fn apply(alloc: Global, vector: &mut Vector, gate: Op, q: u32) -> Result<(), NoMemory>
    requires made { q < vector.old.state.qubits }
    requires room { vector.old.h < 90 }
    ensures qubits { OnOk result (vector.new.state.qubits ≡ vector.old.state.qubits) }
    ensures h { OnOk result (vector.new.h ≤ vector.old.h + 1) }
{
    match gate {
        Op::H => vector.apply_h(alloc, q),
        _ => vector.apply_x(alloc, q),
    }
}

#[test]
fn two_gates_reach_these_numerators(rt: HostRuntime) -> Result<(), Fail> {
    let alloc = rt.alloc();
    for (first, second, wanted) in [
        // The first qubit is the most significant bit of a place.
        ((Op::X, 0), (Op::X, 1), [0, 0, 0, 1]),
        ((Op::H, 0), (Op::X, 1), [0, 1, 0, 1]),
        // H of 1 has a minus.
        ((Op::X, 0), (Op::H, 0), [1, 0, -1, 0]),
        ((Op::X, 1), (Op::H, 1), [1, -1, 0, 0]),
        // Two H give twice the state, over root 2 to the 2.
        ((Op::H, 0), (Op::H, 0), [2, 0, 0, 0]),
    ] {
        assert!(rt; first.1 < 2 && second.1 < 2);
        let vector = after_two(alloc, first, second)?;
        assert_eq!(rt; vector.qubits(), 2);
        let nums = vector.into_numerators();
        assert!(rt; nums.as_slice() == wanted.map(whole).as_slice());
    }
    Ok(())
}
