//! The rule of each deque and of the shared queue: what was pushed is what was taken and what is
//! there, as often. A pass knows a `Tally`; only one that has every part knows the whole.
use crate::numbered::Numbered;
use crossbeam_deque::protocol::{Join, Lesson, Outcome, Protocol, Split};
use std::collections::LinkedList;

/// The numbers that went in and out by one pass, and its parts of the right to know the whole.
/// No value of it is made.
pub struct Tally {
    pub parts: u64,
    pub pushed: LinkedList<u32>,
    pub taken: LinkedList<u32>,
}

/// The rule.
pub struct Accounts;

impl<T: Numbered> Protocol<T, Tally> for Accounts {
    ghost use Rattle.std.specs.Prelude.{map};
    ghost use Rattle.cqp_pool.specs.Tallies.{new_tally, IsAccounted};

    ghost holds = { λ items tallies. IsAccounted (map T.number items) tallies };

    ghost first = { new_tally 1024 };

    // The shared queue's first pass is a guest.
    ghost guest = { new_tally 1024 };
}

/// An item joins.
pub struct Adds;

impl<T: Numbered> Outcome<T, Tally> for Adds {
    ghost use Rattle.std.specs.Prelude.{◌≡◌, ◌++◌, map};
    ghost use Rattle.cqp_pool.specs.Tallies.{tally};

    ghost then = { λ v xs w. w ≡ tally v.parts (v.pushed ++ map T.number xs) v.taken };
}

/// An item leaves.
pub struct Takes;

impl<T: Numbered> Outcome<T, Tally> for Takes {
    ghost use Rattle.std.specs.Prelude.{◌≡◌, ◌++◌, map};
    ghost use Rattle.cqp_pool.specs.Tallies.{tally, WasEmpty};

    ghost then = { λ v xs w. w ≡ tally v.parts v.pushed (v.taken ++ map T.number xs) };

    ghost empty = { WasEmpty };
}

/// An item leaves by a pass that has every part.
pub struct Drains;

impl<T: Numbered> Outcome<T, Tally> for Drains {
    ghost use Rattle.std.specs.Prelude.{◌≡◌, ◌++◌, map};
    ghost use Rattle.cqp_pool.specs.Tallies.{tally, Covers, IsDrained};

    ghost then = { λ v xs w. (w ≡ tally v.parts v.pushed (v.taken ++ map T.number xs)) × Covers w };

    ghost empty = { IsDrained };
}

/// A pass that has every part looks: what was pushed covers what was taken.
pub struct Settles;

impl<T: Numbered> Lesson<T, Tally> for Settles {
    ghost use Rattle.cqp_pool.specs.Tallies.{Covers};

    ghost fact = { λ v items. Covers v };
}

/// A look at how many items there are.
pub struct Counts;

impl<T: Numbered> Lesson<T, Tally> for Counts {
    ghost use Rattle.std.specs.Prelude.{⊤};

    ghost fact = { λ v items. ⊤ };
}

/// One part is cut off, or a pass comes back.
pub struct Cut;

impl Split<Tally> for Cut {
    ghost use Rattle.std.specs.Prelude.{◌-◌};
    ghost use Rattle.cqp_pool.specs.Tallies.{tally, new_tally};

    ghost left = { λ v. tally (v.parts - 1) v.pushed v.taken };

    ghost right = { λ v. new_tally 1 };
}

impl Join<Tally> for Cut {
    ghost use Rattle.std.specs.Prelude.{◌+◌, ◌++◌};
    ghost use Rattle.cqp_pool.specs.Tallies.{tally, new_tally};

    ghost both = { λ v w. tally (v.parts + w.parts) (v.pushed ++ w.pushed) (v.taken ++ w.taken) };

    ghost spent = { new_tally 0 };
}
