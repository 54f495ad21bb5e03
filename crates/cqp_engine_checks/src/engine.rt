//! The loops over a small engine: that of the process `0`, of which nothing is left to do. It could
//! be busy with another process, so that all of its calls may be asked, but makes none of its entries.

ghost use Rattle.std.specs.Prelude.{◌≡◌, pos};
ghost use Rattle.cqp_choose.specs.Odds.{IsLawful};
ghost use Rattle.cqp_syntax.specs.Trees.{nil};
ghost use Rattle.cqp_engine.specs.Progress.{IsSound, fresh};
ghost use Rattle.cqp_engine_checks.specs.Measured.{opening};

use cqp_choose::{Kept, seed_pick};
use cqp_engine::{
    Engine, Fit, ReplayEnd, Replayed, Upcoming, end_laws, plain_run, replay, replay_laws,
    step_laws, upcoming_laws,
};
use cqp_lists::NoMemory;
use cqp_ring::{Root, Weight};
use cqp_syntax::Names;
use cqp_trace::{Deed, End, Entries, Entry, Trace};
use cqp_vector::Odds;
use std::alloc::{AllocError, Global};
use std::test::Fail;

#[derive(Drop)]
struct Small {
    busy: bool,
}

impl Engine for Small {
    ghost progress = { λ s. fresh (opening s.busy) };

    fn least(&mut self, _alloc: Global) -> Result<Option<u32>, NoMemory> {
        if self.busy {
            return Ok(Some(0));
        }
        Ok(None)
    }

    fn turn(&self) -> u64 {
        0
    }

    fn left(&self) -> u32 {
        if self.busy { 1 } else { 0 }
    }

    fn upcoming(&mut self, _alloc: Global, _part: u32) -> Result<Upcoming, NoMemory> {
        Err(AllocError)
    }

    fn odds(&mut self, _alloc: Global, _part: u32, _qubits: &Names) -> Result<Odds, NoMemory> {
        Err(AllocError)
    }

    fn step(&mut self, _alloc: Global, _entry: &Entry) -> Result<Fit, NoMemory> {
        if self.busy {
            return Err(AllocError);
        }
        Ok(Fit::NoStep)
    }

    fn make(&mut self, _alloc: Global, _entry: Entry) -> Result<Fit, NoMemory> {
        Err(AllocError)
    }

    fn is_before_h(&self, _part: u32) -> bool {
        false
    }

    fn is_at_limit(&self) -> bool {
        false
    }

    fn weight(&self) -> Weight {
        one()
    }
}

fn one() -> Weight
    ensures { result ≡ record { top = record { p = pos 1; q = pos 0 }; below = 0 } }
{
    Weight {
        top: Root { p: 1, q: 0 },
        below: 0,
    }
}

// The process `0` is derivable and has no binder.
fn sound()
    ensures { IsSound nil }
{}

fn trace(alloc: Global, end: End, weight: Weight) -> Trace {
    Trace {
        entries: Entries::new(alloc),
        end,
        weight,
    }
}

#[test]
fn nothing_is_run(rt: HostRuntime) -> Result<(), Fail> {
    sound();
    let kept = Kept::new(
        |turn: u64, odds: &[Root]| -> u64
            requires { IsLawful odds.now }
        { seed_pick(7, turn, odds) },
    );
    let made = plain_run(rt.alloc(), &mut Small { busy: false }, &kept)?;
    assert_eq!(rt; made.end, End::Done { left: 0 });
    assert_eq!(rt; made.weight, one());
    Ok(())
}

#[test]
fn nothing_is_replayed(rt: HostRuntime) -> Result<(), Fail> {
    sound();
    let alloc = rt.alloc();
    let done = End::Done { left: 0 };
    let right = one();
    let made = replay(
        alloc,
        &mut Small { busy: false },
        &trace(alloc, done, right),
    );
    assert_eq!(rt; made, Ok(Replayed { entries: 0 }));
    let other = trace(alloc, End::Done { left: 1 }, right);
    let refused = Err(ReplayEnd::NotEnd { line: 1 });
    assert_eq!(rt; replay(alloc, &mut Small { busy: false }, &other), refused);
    let given = Weight {
        top: Root { p: 2, q: 0 },
        below: 1,
    };
    let refused = Err(ReplayEnd::WrongWeight { given, right });
    assert_eq!(rt;
        replay(
            alloc,
            &mut Small { busy: false },
            &trace(alloc, done, given)
        ),
        refused
    );
    let mut longer = trace(alloc, done, right);
    longer.entries.push(Entry {
        part: 0,
        deed: Deed::Qbit { q: 0 },
    })?;
    let refused = Err(ReplayEnd::NotStep { line: 1 });
    assert_eq!(rt; replay(alloc, &mut Small { busy: false }, &longer), refused);
    replay_laws();
    step_laws();
    upcoming_laws();
    end_laws();
    Ok(())
}
