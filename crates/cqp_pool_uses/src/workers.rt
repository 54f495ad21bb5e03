//! One worker for each lane, in a thread of its own.
ghost use Rattle.std.specs.Prelude.{◌≡◌, length};
ghost use Rattle.cqp_pool.specs.Pools.{IsWhole, SamePlace};

use crate::given::Given;
use cqp_pool::{Lane, Lanes, PushRefused};
use std::sync::Wait;
use std::thread;
use std::thread::Threads;

/// Each lane's worker adds the numbers below `items`, takes an item now and then, and at the end
/// takes what it finds, the others' items too. The lanes keep their places.
pub fn work_side_by_side<R: Threads + Wait + Sync>(
    rt: &R,
    lanes: &mut Lanes<u32>,
    items: u32,
    given: &Given,
)
    ensures { IsWhole lanes.old → IsWhole lanes.new }
{
    work_on(rt, lanes.as_mut_slice(), items, given);
}

fn work_on<R: Threads + Wait + Sync>(rt: &R, lanes: &mut [Lane<u32>], items: u32, given: &Given)
    ensures { IsWhole lanes.old → IsWhole lanes.new }
{
    thread::for_each_mut(
        rt,
        lanes,
        16,
        &|_, lane: &mut Lane<u32>|
            ensures { SamePlace lane.entry.now lane.exit.now }
        { work(rt, lane, items, given) },
    );
}

// The worker stops pushing where there is no memory for an item.
fn work<R: Wait>(rt: &R, lane: &mut Lane<u32>, items: u32, given: &Given)
    ensures { SamePlace lane.old lane.new }
{
    for item in 0..items {
        if add(rt, lane, item).is_err() {
            break;
        }
        if item % 4 == 0 {
            take(rt, lane, given);
        }
    }
    for _ in rt.forever() {
        if !take(rt, lane, given) {
            break;
        }
    }
}

// Even items go to the lane's own deque, odd ones to the shared queue.
fn add<R: Wait>(rt: &R, lane: &mut Lane<u32>, item: u32) -> Result<(), PushRefused<u32>>
    ensures { SamePlace lane.old lane.new }
{
    if item % 2 == 0 {
        lane.push(item)
    } else {
        lane.share(rt, item)
    }
}

fn take<R: Wait>(rt: &R, lane: &mut Lane<u32>, given: &Given) -> bool
    ensures { SamePlace lane.old lane.new }
{
    let Some(item) = lane.pop(rt) else {
        return false;
    };
    given.add(item);
    true
}
