//! The two list types at a concrete type, call by call.

use cqp_lists::{List, ShortList};
use std::test::Fail;

#[test]
fn a_list_is_filled_compared_and_copied(rt: HostRuntime) -> Result<(), Fail> {
    let mut numbers: List<u32> = List::new(rt.alloc());
    assert!(rt; numbers.is_empty());
    numbers.push(7)?;
    numbers.extend_from_slice(&[3, 5])?;
    assert_eq!(rt; numbers.len(), 3);
    assert!(rt; numbers.as_slice() == [7, 3, 5].as_slice());
    let same = List::from_vec(vec![in rt.alloc(); 7, 3, 5]?);
    let other = List::from_vec(vec![in rt.alloc(); 7, 5, 3]?);
    assert!(rt; numbers == same && numbers != other);
    assert!(rt; numbers.clone()? == numbers);
    assert!(rt; numbers.into_vec().as_slice() == [7, 3, 5].as_slice());
    Ok(())
}

#[test]
fn room_is_no_item(rt: HostRuntime) -> Result<(), Fail> {
    let mut numbers: List<u32> = List::with_capacity(rt.alloc(), 4)?;
    assert!(rt; numbers.is_empty());
    numbers.push(1)?;
    assert_eq!(rt; numbers.len(), 1);
    Ok(())
}

#[test]
fn a_short_list_is_filled_compared_and_cleared(rt: HostRuntime) -> Result<(), Fail> {
    let mut numbers: ShortList<u32, 2> = ShortList::new(rt.alloc());
    assert!(rt; numbers.is_empty());
    numbers.push(7)?;
    numbers.extend_from_slice(&[3, 5])?;
    assert_eq!(rt; numbers.len(), 3);
    assert!(rt; numbers.as_slice() == [7, 3, 5].as_slice());
    let same: ShortList<u32, 2> = ShortList::from_vec(vec![in rt.alloc(); 7, 3, 5]?);
    let other: ShortList<u32, 2> = ShortList::from_slice(rt.alloc(), &[7, 5, 3])?;
    assert!(rt; numbers == same && numbers != other);
    assert!(rt; numbers.clone()? == numbers);
    numbers.clear();
    assert!(rt; numbers.is_empty());
    Ok(())
}
