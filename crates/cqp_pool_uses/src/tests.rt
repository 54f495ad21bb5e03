//! Each item comes out once, whoever takes it. No test fixes an order that nothing promises.

mod team;

use crate::{Given, work_side_by_side};
use cqp_pool::{Gathered, Lanes, Numbered, Pool};
use std::sync::Wait;
use std::test::Fail;
use team::Team;

/// An item that is neither `Copy` nor `Clone`.
#[derive(Drop)]
struct Parcel {
    label: u32,
}

impl Numbered for Parcel {
    ghost number = { λ p. p.label };

    fn number(&self) -> u32 {
        self.label
    }
}

/// How many items a lane's pops give, each of which is counted.
fn popped<R: Wait>(rt: &R, team: &mut Team<u32>, at: usize, given: &Given) -> u32 {
    let mut count = 0u32;
    for _ in 0..20_000 {
        let Some(item) = team.pop(rt, at) else {
            break;
        };
        given.add(item);
        count = count.saturating_add(1);
    }
    count
}

/// How many items were left behind, each of which is counted.
fn left<R: Wait>(rt: &R, gathered: &mut Gathered<u32>, given: &Given) -> u32 {
    let mut count = 0u32;
    for _ in 0..20_000 {
        let Some(item) = gathered.left(rt) else {
            break;
        };
        given.add(item);
        count = count.saturating_add(1);
    }
    count
}

#[test]
fn two_threads_give_each_item_once(rt: HostRuntime) -> Result<(), Fail> {
    let mut lanes: Lanes<u32> = Pool::start(&rt, rt.alloc(), 2)?;
    let given = Given::new(rt.alloc(), 10_000)?;
    work_side_by_side(&rt, &mut lanes, 10_000, &given);
    let mut gathered = Pool::gather(&rt, lanes);
    left(&rt, &mut gathered, &given);
    assert_eq!(rt; gathered.left(&rt), None);
    // Each worker pushed each number.
    assert!(rt; given.is_each(2));
    Ok(())
}

#[test]
fn a_lane_takes_what_others_pushed_or_shared(rt: HostRuntime) -> Result<(), Fail> {
    let mut team: Team<u32> = Team::start(&rt, rt.alloc(), 2)?;
    let given = Given::new(rt.alloc(), 4)?;
    assert!(rt; team.push(0, 0) && team.push(0, 1));
    assert_eq!(rt; popped(&rt, &mut team, 1, &given), 2);
    assert!(rt; team.share(&rt, 1, 2));
    assert_eq!(rt; popped(&rt, &mut team, 0, &given), 1);
    assert!(rt; team.push(0, 3));
    let mut gathered = team.gather(&rt);
    assert_eq!(rt; left(&rt, &mut gathered, &given), 1);
    assert!(rt; given.is_each(1));
    Ok(())
}

#[test]
fn the_last_lane_takes_from_all_others(rt: HostRuntime) -> Result<(), Fail> {
    for workers in [1, 2, 16] {
        assert!(rt; 0 < workers && workers <= 16);
        let mut team: Team<u32> = Team::start(&rt, rt.alloc(), workers)?;
        let given = Given::new(rt.alloc(), workers)?;
        for at in 0..workers {
            assert!(rt; team.push(at as usize, at));
        }
        let last = workers as usize - 1;
        assert_eq!(rt; popped(&rt, &mut team, last, &given), workers);
        assert!(rt; given.is_each(1), "{workers}");
    }
    Ok(())
}

#[test]
fn a_lane_keeps_what_its_deque_refuses(rt: HostRuntime) -> Result<(), Fail> {
    let mut team: Team<u32> = Team::start(&rt, rt.alloc(), 2)?;
    let given = Given::new(rt.alloc(), 5_000)?;
    for item in 0..5_000 {
        assert!(rt; team.push(0, item));
    }
    // A deque has 4,096 items at most, and no other lane reaches those that are kept.
    assert_eq!(rt; popped(&rt, &mut team, 1, &given), 4_096);
    assert_eq!(rt; popped(&rt, &mut team, 0, &given), 904);
    assert!(rt; given.is_each(1));
    Ok(())
}

#[test]
fn items_need_not_be_copied(rt: HostRuntime) -> Result<(), Fail> {
    let mut team: Team<Parcel> = Team::start(&rt, rt.alloc(), 2)?;
    let given = Given::new(rt.alloc(), 2)?;
    assert!(rt; team.push(0, Parcel { label: 0 }));
    assert!(rt; team.share(&rt, 0, Parcel { label: 1 }));
    given.add(team.pop(&rt, 0).ok_or("an item")?.number());
    given.add(team.pop(&rt, 1).ok_or("an item")?.number());
    assert!(rt; given.is_each(1) && team.gather(&rt).left(&rt).is_none());
    Ok(())
}
