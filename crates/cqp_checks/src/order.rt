//! Parts that come and go, beside a walk over all pairs of them.

use cqp_order::{NoMemory, Order, Stand, Turn};
use std::test::Fail;

/// How many parts the tests have room for.
const PARTS: usize = 12;

/// Puts a part that is not there and has room, and says whether it did.
fn put(order: &mut Order, part: u32, stand: Stand) -> Result<bool, NoMemory> {
    if order.stand(part) != None || part as usize >= order.room() {
        return Ok(false);
    }
    order.put(part, stand)?;
    Ok(true)
}

fn turn(part: u32, partner: Option<u32>) -> Option<Turn> {
    Some(Turn { part, partner })
}

/// Whether two parts meet.
fn meets(one: Option<Stand>, other: Option<Stand>) -> bool {
    match (one, other) {
        (Some(Stand::Sends { chan: c }), Some(Stand::Receives { chan: d })) => c == d,
        (Some(Stand::Receives { chan: c }), Some(Stand::Sends { chan: d })) => c == d,
        _ => false,
    }
}

/// The least part, if any, that meets one that stands so.
fn partner(stands: &[Option<Stand>; PARTS], stand: Option<Stand>) -> Option<u32> {
    for (number, other) in (0u32..).zip(stands.iter()) {
        if meets(stand, *other) {
            return Some(number);
        }
    }
    None
}

/// The least turn, by a walk over all pairs.
fn walked(stands: &[Option<Stand>; PARTS]) -> Option<Turn> {
    for (number, stand) in (0u32..).zip(stands.iter()) {
        if *stand == Some(Stand::Alone) {
            return turn(number, None);
        }
        if let Some(other) = partner(stands, *stand) {
            return turn(number, Some(other));
        }
    }
    None
}

/// A part's number and stand, of a random word.
fn drawn(word: u32) -> (u32, Stand) {
    let part = (word >> 16) % 12;
    let chan = (word >> 24) % 3;
    match (word >> 28) % 5 {
        0 => (part, Stand::Alone),
        1 | 2 => (part, Stand::Sends { chan }),
        _ => (part, Stand::Receives { chan }),
    }
}

#[test]
fn turns_as_by_hand(rt: HostRuntime) -> Result<(), Fail> {
    let mut order = Order::new(rt.alloc(), 12)?;
    assert!(rt; order.least() == None);
    put(&mut order, 4, Stand::Sends { chan: 7 })?;
    put(&mut order, 2, Stand::Sends { chan: 7 })?;
    put(&mut order, 9, Stand::Receives { chan: 8 })?;
    assert!(rt; order.least() == None);
    put(&mut order, 5, Stand::Receives { chan: 7 })?;
    put(&mut order, 3, Stand::Receives { chan: 7 })?;
    assert!(rt; order.least() == turn(2, Some(3)));
    assert!(rt; order.take(2) == Some(Stand::Sends { chan: 7 }));
    assert!(rt; order.least() == turn(3, Some(4)));
    put(&mut order, 6, Stand::Alone)?;
    assert!(rt; order.least() == turn(3, Some(4)));
    assert!(rt; order.take(4) == Some(Stand::Sends { chan: 7 }));
    assert!(rt; order.least() == turn(6, None));
    assert!(rt; order.take(6) == Some(Stand::Alone));
    assert!(rt; order.least() == None);
    assert!(rt; order.take(6) == None);
    assert!(rt; order.stand(9) == Some(Stand::Receives { chan: 8 }));
    Ok(())
}

#[test]
fn turns_as_walked(rt: HostRuntime) -> Result<(), Fail> {
    let mut order = Order::new(rt.alloc(), 12)?;
    let mut stands = [None; PARTS];
    let mut word = 1u32;
    for _ in 0..400 {
        word = word.wrapping_mul(1_664_525).wrapping_add(1_013_904_223);
        let (part, stand) = drawn(word);
        let place = part as usize % PARTS;
        if put(&mut order, part, stand)? {
            stands[place] = Some(stand);
        } else {
            assert!(rt; order.take(part) == stands[place]);
            stands[place] = None;
        }
        assert!(rt; order.least() == walked(&stands));
    }
    Ok(())
}
