//! How the lanes of a new pool are made: their deques, a way into each of these for each lane, and
//! a way into the shared queue for each lane.
ghost use Rattle.std.specs.Prelude.{◌≡◌, ◌-◌, ◌<◌, ◌≤◌, All, IfOk, OnOk, map, vec_len};
ghost use Rattle.std.specs.List.{range_with_len};
ghost use Rattle.cqp_pool.specs.Tallies.{new_tally};
ghost use Rattle.cqp_pool.specs.Pools.{IsNew, IsWhole, numbers_of};
ghost use Rattle.cqp_pool.specs.Parts.{Owned, lend, new_owns, new_row, deques_in};

use crate::door::Door;
use crate::lane::Lane;
use crate::numbered::Numbered;
use crate::own::Own;
use crate::reach::Reach;
use std::alloc::{AllocError, Global};

/// New lanes over one shared queue, in the order of their numbers.
pub(crate) fn new_lanes<T: Numbered>(
    alloc: Global,
    count: usize,
) -> Result<Vec<Lane<T>>, AllocError>
    requires { (0 < count) × (count ≤ 16) }
    ensures count { IfOk result (λ v. vec_len v ≡ count) }
    ensures numbers { IfOk result (λ v. numbers_of v.items ≡ range_with_len 0 count) }
    ensures whole { IfOk result (λ v. IsWhole v.items) }
    ensures new { IfOk result (λ v. All IsNew v.items) }
{
    let mut owns = new_deques(alloc, count)?;
    let rows = new_rows(alloc, &mut owns)?;
    seated(alloc, owns, rows, Door::new(alloc)?)
}

fn new_deques<T: Numbered>(alloc: Global, count: usize) -> Result<Vec<Own<T>>, AllocError>
    ensures owns { IfOk result (λ v. v.items ≡ new_owns 1024 (deques_in v.items)) }
    ensures count { IfOk result (λ v. vec_len v ≡ count) }
{
    let mut owns = Vec::with_capacity(alloc, count)?;
    for _made in 0..count {
        owns.push(Own::new(alloc)?)?;
    }
    Ok(owns)
}

// A row for each lane: a way into each deque.
fn new_rows<T: Numbered>(
    alloc: Global,
    owns: &mut Vec<Own<T>>,
) -> Result<Vec<Vec<Reach<T>>>, AllocError>
    requires owns { owns.old.items ≡ new_owns 1024 (deques_in owns.old.items) }
    requires few { vec_len owns.old ≤ 16 }
    ensures owns { OnOk result (
        owns.new.items ≡ new_owns (1024 - vec_len owns.old) (deques_in owns.old.items)) }
    ensures rows { IfOk result (λ v.
        All (λ r. r.items ≡ new_row (deques_in owns.old.items)) v.items) }
    ensures count { IfOk result (λ v. vec_len v ≡ vec_len owns.old) }
{
    let count = owns.len();
    let mut rows = Vec::with_capacity(alloc, count)?;
    for _made in 0..count {
        let row = row_into(alloc, owns)?;
        rows.push(row)?;
    }
    Ok(rows)
}

// A way into each deque.
fn row_into<T: Numbered>(alloc: Global, owns: &mut Vec<Own<T>>) -> Result<Vec<Reach<T>>, AllocError>
    requires { All (λ (o : Owned). 1 < o.view.parts) owns.old.items }
    ensures row { IfOk result (λ r. r.items ≡ new_row (deques_in owns.old.items)) }
    ensures owns { OnOk result (owns.new.items ≡ map lend owns.old.items) }
{
    row_into_all(alloc, owns.as_mut_slice())
}

fn row_into_all<T: Numbered>(
    alloc: Global,
    owns: &mut [Own<T>],
) -> Result<Vec<Reach<T>>, AllocError>
    requires { All (λ (o : Owned). 1 < o.view.parts) owns.old }
    ensures row { IfOk result (λ r. r.items ≡ new_row (deques_in owns.old)) }
    ensures owns { OnOk result (owns.new ≡ map lend owns.old) }
{
    let mut row = Vec::with_capacity(alloc, owns.len())?;
    for k in 0..owns.len() {
        let own = &mut owns[k];
        let reach = own.reach()?;
        row.push(reach)?;
    }
    Ok(row)
}

// Makes the lanes from the last to the first, which gets what is over of the shared queue.
fn seated<T: Numbered>(
    alloc: Global,
    mut owns: Vec<Own<T>>,
    mut rows: Vec<Vec<Reach<T>>>,
    mut rest: Door<T>,
) -> Result<Vec<Lane<T>>, AllocError>
    requires owns { owns.items ≡ new_owns (1024 - vec_len owns) (deques_in owns.items) }
    requires rows { All (λ r. r.items ≡ new_row (deques_in owns.items)) rows.items }
    requires count { (vec_len rows ≡ vec_len owns) × (0 < vec_len owns) × (vec_len owns ≤ 16) }
    requires rest { rest.view ≡ new_tally 1024 }
    ensures count { IfOk result (λ v. vec_len v ≡ vec_len owns) }
    ensures numbers { IfOk result (λ v. numbers_of v.items ≡ range_with_len 0 (vec_len owns)) }
    ensures whole { IfOk result (λ v. IsWhole v.items) }
    ensures new { IfOk result (λ v. All IsNew v.items) }
{
    let mut lanes = Vec::with_capacity(alloc, owns.len())?;
    while let Some(own) = owns.pop() {
        let Some(row) = rows.pop() else {
            unreachable!()
        };
        let number = owns.len();
        if number == 0 {
            lanes.insert(0, Lane::new(alloc, 0, own, row, rest))?;
            return Ok(lanes);
        }
        let door = rest.another()?;
        lanes.insert(0, Lane::new(alloc, number, own, row, door))?;
    }
    unreachable!()
}
