//! How lanes are gathered: they are taken apart in the order of their numbers, and each deque and
//! the shared queue takes in the passes that lead to it.
ghost use Rattle.std.specs.Prelude.{◌≡◌, ◌+◌, ◌<◌, ℕ, [], ◌∷◌, ◌++◌, All, Contains, IfOk};
ghost use Rattle.std.specs.Prelude.{length, vec_len, slice_index_or};
ghost use Rattle.cqp_pool.specs.Often.{AsOften};
ghost use Rattle.cqp_pool.specs.Pools.{PoolId, LaneState, IsWhole, numbers_of, pushed_by, taken_by};
ghost use Rattle.cqp_pool.specs.Parts.{Owned, IsSettled, zip_in, deques_in, deques_of};
ghost use Rattle.cqp_pool.specs.Rooms.{IsRoom, HasRoom};
ghost use Rattle.cqp_pool.specs.Apart.{IsInOrder, IsApart, all_in};

use crate::door::Door;
use crate::gathered::Gathered;
use crate::kept::Kept;
use crate::lane::{Lane, LaneParts};
use crate::numbered::Numbered;
use crate::own::Own;
use crate::reach::Reach;
use std::alloc::{AllocError, Global};

/// What lanes leave behind, but for their ways into the shared queue: the place of each is the
/// lane's number.
#[derive(Drop)]
pub(crate) struct PoolParts<T: Numbered> {
    pub(crate) owns: Vec<Own<T>>,
    pub(crate) rows: Vec<Vec<Reach<T>>>,
    pub(crate) kepts: Vec<Kept<T>>,
}

impl<T: Numbered> PoolParts<T> {
    /// Empty lists with room for what `count` lanes leave behind.
    pub(crate) fn with_capacity(alloc: Global, count: usize) -> Result<PoolParts<T>, AllocError>
        ensures { IfOk result (λ p. IsRoom p count) }
    {
        Ok(PoolParts {
            owns: Vec::with_capacity(alloc, count)?,
            rows: Vec::with_capacity(alloc, count)?,
            kepts: Vec::with_capacity(alloc, count)?,
        })
    }

    /// Adds what one lane leaves behind, and gives its way into the shared queue. It takes no
    /// memory.
    fn add(&mut self, lane: LaneParts<T>) -> Door<T>
        requires { HasRoom self.old 1 }
        ensures door { result ≡ lane.door }
        ensures owns { self.new.owns.items ≡ self.old.owns.items ++ lane.own ∷ [] }
        ensures rows { self.new.rows.items ≡ self.old.rows.items ++ lane.row ∷ [] }
        ensures kepts { self.new.kepts.items ≡ self.old.kepts.items ++ lane.kept ∷ [] }
        ensures room { (more : ℕ) → HasRoom self.old (more + 1) → HasRoom self.new more }
    {
        let LaneParts {
            own,
            row,
            door,
            kept,
        } = lane;
        self.owns.push_reserved(own);
        self.rows.push_reserved(row);
        self.kepts.push_reserved(kept);
        door
    }
}

/// Gathers the lanes of one pool. It takes no memory.
pub(crate) fn gathered<T: Numbered>(mut lanes: Vec<Lane<T>>, room: PoolParts<T>) -> Gathered<T>
    requires whole { IsWhole lanes.items }
    requires some { 0 < vec_len lanes }
    requires room { IsRoom room (vec_len lanes) }
    ensures pushed { AsOften result.pushed (pushed_by lanes.items) }
    ensures taken { AsOften result.taken (taken_by lanes.items) }
{
    in_order(&mut lanes);
    let (parts, door) = taken_apart(lanes, room);
    let PoolParts {
        mut owns,
        rows,
        kepts,
    } = parts;
    take_all_in(&mut owns, rows);
    settle(&mut owns);
    Gathered::new(owns, door, kepts)
}

// Puts each lane at the place of its number.
fn in_order<T: Numbered>(lanes: &mut Vec<Lane<T>>)
    requires { IsWhole lanes.old.items }
    ensures order { (pool : PoolId) × IsInOrder pool lanes.new.items }
    ensures len { vec_len lanes.new ≡ vec_len lanes.old }
    ensures pushed { AsOften (pushed_by lanes.new.items) (pushed_by lanes.old.items) }
    ensures taken { AsOften (taken_by lanes.new.items) (taken_by lanes.old.items) }
{
    for k in 0..lanes.len() {
        let at = place_of(lanes.as_slice(), k);
        lanes.swap(k, at);
    }
}

// The place of a lane with this number.
fn place_of<T: Numbered>(lanes: &[Lane<T>], number: usize) -> usize
    requires { Contains (numbers_of lanes.now) number }
    ensures within { result < length lanes.now }
    ensures found { (d : LaneState T) → (slice_index_or lanes.now result d).number ≡ number }
{
    for at in 0..lanes.len() {
        if lanes[at].number() == number {
            return at;
        }
    }
    unreachable!()
}

// Takes the lanes apart. The first lane's way into the shared queue takes the others' in.
fn taken_apart<T: Numbered>(mut lanes: Vec<Lane<T>>, room: PoolParts<T>) -> (PoolParts<T>, Door<T>)
    requires order { (pool : PoolId) × IsInOrder pool lanes.items }
    requires some { 0 < vec_len lanes }
    requires room { IsRoom room (vec_len lanes) }
    ensures { (pool : PoolId) → IsInOrder pool lanes.items → IsApart T.number pool lanes.items
        result.0.owns.items result.0.rows.items result.0.kepts.items result.1 }
{
    let mut parts = room;
    let mut door = parts.add(lanes.remove(0).into_parts());
    for lane in lanes {
        let other = parts.add(lane.into_parts());
        door.absorb(other);
    }
    (parts, door)
}

// Each deque takes in all ways that lead to it.
fn take_all_in<T: Numbered>(owns: &mut Vec<Own<T>>, rows: Vec<Vec<Reach<T>>>)
    requires rows { All (λ r. deques_of r.items ≡ deques_in owns.old.items) rows.items }
    requires parts { All (λ (o : Owned). 0 < o.view.parts) owns.old.items }
    ensures { owns.new.items ≡ all_in owns.old.items rows.items }
{
    for row in rows {
        take_in(owns, row);
    }
}

fn take_in<T: Numbered>(owns: &mut Vec<Own<T>>, row: Vec<Reach<T>>)
    requires deques { deques_of row.items ≡ deques_in owns.old.items }
    requires parts { All (λ (o : Owned). 0 < o.view.parts) owns.old.items }
    ensures { owns.new.items ≡ zip_in owns.old.items row.items }
{
    take_in_all(owns.as_mut_slice(), row);
}

// Each deque takes in the way that leads to it.
fn take_in_all<T: Numbered>(owns: &mut [Own<T>], mut row: Vec<Reach<T>>)
    requires deques { deques_of row.items ≡ deques_in owns.old }
    requires parts { All (λ (o : Owned). 0 < o.view.parts) owns.old }
    ensures { owns.new ≡ zip_in owns.old row.items }
{
    let mut k = owns.len();
    while let Some(reach) = row.pop() {
        k -= 1;
        let own = &mut owns[k];
        own.absorb(reach);
    }
}

// Each deque learns that what was pushed covers what was taken.
fn settle<T: Numbered>(owns: &mut Vec<Own<T>>)
    requires { All (λ (o : Owned). o.view.parts ≡ 1024) owns.old.items }
    ensures same { owns.new.items ≡ owns.old.items }
    ensures settled { All IsSettled owns.new.items }
{
    settle_in(owns.as_mut_slice());
}

fn settle_in<T: Numbered>(owns: &mut [Own<T>])
    requires { All (λ (o : Owned). o.view.parts ≡ 1024) owns.old }
    ensures same { owns.new ≡ owns.old }
    ensures settled { All IsSettled owns.new }
{
    for k in 0..owns.len() {
        let own = &mut owns[k];
        own.settle();
    }
}
