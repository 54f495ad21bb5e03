ghost use Rattle.std.specs.Prelude.{◌≡◌, ◌≤◌, ◌↔◌, IsTrue, Contains};
ghost use Rattle.cqp_outside.specs.Calls.{Calls, no_calls, after_call, after_fault};

use crate::failed::Failed;
use crate::lists::Numbers;
use std::marker::Model;

/// Which calls of a source or a sink in memory are to fail, and the counts of calls and of faults.
/// A count stands still at the end of u64. Contracts see the record `Calls`.
#[derive(Drop)]
pub(crate) struct CallLog {
    fails: Numbers,
    next: u64,
    faults: u64,
}

impl Model for CallLog {
    ghost Value = { Calls };

    ghost view = { λ c. record { fails = c.fails; next = c.next; faults = c.faults } };
}

impl CallLog {
    pub(crate) fn new(fails: Numbers) -> Self
        ensures { result ≡ no_calls fails }
    {
        Self {
            fails,
            next: 0,
            faults: 0,
        }
    }

    /// Whether the next call is to fail. The time grows with the number of calls that are to fail.
    pub(crate) fn is_due(&self) -> bool
        ensures { IsTrue result ↔ Contains self.now.fails self.now.next }
    {
        self.fails.as_slice().contains(&self.next)
    }

    /// Counts a call that went well.
    pub(crate) fn pass(&mut self)
        ensures { self.new ≡ after_call self.old }
    {
        self.next = self.next.saturating_add(1);
    }

    /// Counts a call that failed, and returns its error.
    pub(crate) fn fail(&mut self) -> Failed
        ensures counts { self.new ≡ after_fault self.old }
        ensures later { self.old.faults ≤ self.new.faults }
    {
        self.next = self.next.saturating_add(1);
        self.faults = self.faults.saturating_add(1);
        Failed
    }
}
