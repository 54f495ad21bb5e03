//! Lanes of one pool that are called by their places.
ghost use Rattle.std.specs.Prelude.{◌<◌, ◌≤◌};
ghost use Rattle.cqp_pool.specs.Pools.{IsWhole};

use cqp_pool::{Gathered, Lane, Lanes, NoMemory, Numbered, Pool};
use std::alloc::Global;
use std::marker::Model;
use std::sync::Wait;
use std::thread::Threads;

/// Each lane of one pool.
#[derive(Drop)]
pub struct Team<T: Numbered> {
    lanes: Lanes<T>,
}

impl<T: Numbered> Model for Team<T> {
    ghost use Rattle.std.specs.Prelude.{List};
    ghost use Rattle.cqp_pool.specs.Pools.{LaneState, IsWhole};

    ghost Value = { List (LaneState T) };

    ghost view = { λ t. t.lanes };

    ghost invariant = { λ t. IsWhole t.lanes };
}

impl<T: Numbered> Team<T> {
    pub fn start<R: Threads + Wait + Sync>(
        rt: &R,
        alloc: Global,
        workers: u32,
    ) -> Result<Team<T>, NoMemory>
        requires { (0 < workers) × (workers ≤ 16) }
    {
        let lanes = Pool::start(rt, alloc, workers)?;
        Ok(Team { lanes })
    }

    pub fn push(&mut self, at: usize, item: T) -> bool {
        push_to(self.lanes.as_mut_slice(), at, item)
    }

    pub fn share<R: Wait>(&mut self, rt: &R, at: usize, item: T) -> bool {
        share_from(rt, self.lanes.as_mut_slice(), at, item)
    }

    pub fn pop<R: Wait>(&mut self, rt: &R, at: usize) -> Option<T> {
        pop_from(rt, self.lanes.as_mut_slice(), at)
    }

    pub fn gather<R: Threads + Wait + Sync>(self, rt: &R) -> Gathered<T> {
        let Team { lanes } = self;
        Pool::gather(rt, lanes)
    }
}

fn push_to<T: Numbered>(lanes: &mut [Lane<T>], at: usize, item: T) -> bool
    ensures { IsWhole lanes.old → IsWhole lanes.new }
{
    if at >= lanes.len() {
        return false;
    }
    let lane = &mut lanes[at];
    lane.push(item).is_ok()
}

fn share_from<T: Numbered, R: Wait>(rt: &R, lanes: &mut [Lane<T>], at: usize, item: T) -> bool
    ensures { IsWhole lanes.old → IsWhole lanes.new }
{
    if at >= lanes.len() {
        return false;
    }
    let lane = &mut lanes[at];
    lane.share(rt, item).is_ok()
}

fn pop_from<T: Numbered, R: Wait>(rt: &R, lanes: &mut [Lane<T>], at: usize) -> Option<T>
    ensures { IsWhole lanes.old → IsWhole lanes.new }
{
    if at >= lanes.len() {
        return None;
    }
    let lane = &mut lanes[at];
    lane.pop(rt)
}
