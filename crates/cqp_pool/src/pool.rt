//! A pool: how its lanes are made, and how they are gathered.
ghost use Rattle.std.specs.Prelude.{◌≡◌, ◌<◌, ◌≤◌, All, IfOk, length};
ghost use Rattle.std.specs.List.{range_with_len};
ghost use Rattle.cqp_pool.specs.Often.{AsOften};
ghost use Rattle.cqp_pool.specs.Pools.{IsNew, IsWhole, numbers_of, pushed_by, taken_by};

use crate::gather::{PoolParts, gathered};
use crate::gathered::Gathered;
use crate::lanes::Lanes;
use crate::numbered::Numbered;
use crate::start::new_lanes;
use std::alloc::{AllocError, Global};
use std::sync::Wait;
use std::thread::Threads;

/// Want of memory.
pub type NoMemory = AllocError;

/// A pool of lanes, one for each worker.
pub struct Pool;

impl Pool {
    /// Makes one lane for each worker, in the order of their numbers, over one shared queue.
    pub fn start<T: Numbered, R: Threads + Wait + Sync>(
        _rt: &R,
        alloc: Global,
        workers: u32,
    ) -> Result<Lanes<T>, NoMemory>
        requires { (0 < workers) × (workers ≤ 16) }
        ensures count { IfOk result (λ lanes. length lanes ≡ workers) }
        ensures numbers { IfOk result (λ lanes. numbers_of lanes ≡ range_with_len 0 workers) }
        ensures whole { IfOk result (λ lanes. IsWhole lanes) }
        ensures new { IfOk result (λ lanes. All IsNew lanes) }
    {
        let count = workers as usize;
        let lanes = new_lanes(alloc, count)?;
        let room = PoolParts::with_capacity(alloc, count)?;
        Ok(Lanes::new(lanes, room))
    }

    /// Takes the passes of all lanes in, so that no lane pushes or pops any more. The lanes may
    /// stand in any order. It takes no memory.
    pub fn gather<T: Numbered, R: Threads + Wait + Sync>(_rt: &R, lanes: Lanes<T>) -> Gathered<T>
        requires { IsWhole lanes }
        ensures pushed { AsOften result.pushed (pushed_by lanes) }
        ensures taken { AsOften result.taken (taken_by lanes) }
    {
        let (lanes, room) = lanes.into_parts();
        gathered(lanes, room)
    }
}
