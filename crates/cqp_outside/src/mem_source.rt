ghost use Rattle.std.specs.Prelude.{◌≡◌, ◌<◌, ◌≤◌, ◌↔◌, length, Some, Contains, IsErr};
ghost use Rattle.std.specs.Io.{ReadsAtMost};
ghost use Rattle.std.specs.Io.KnownBytes.{ReadConsumes};
ghost use Rattle.cqp_outside.specs.Causes.{HasCause};
ghost use Rattle.cqp_outside.specs.Feed.{feed_of, IsGiven};

use crate::call_log::CallLog;
use crate::failed::Failed;
use crate::lists::{Bytes, Numbers};
use crate::rest::Rest;
use crate::source::Source;
use std::marker::Model;

/// A source over bytes in memory that gives at most `step` bytes a call, and fails at the calls
/// that it is told. Contracts see the record `Feed`.
#[derive(Drop)]
pub struct MemSource {
    rest: Rest,
    step: usize,
    log: CallLog,
}

impl Model for MemSource {
    ghost use Rattle.std.specs.Prelude.{◌≤◌};
    ghost use Rattle.cqp_outside.specs.Feed.{Feed};

    ghost Value = { Feed };

    ghost view = { λ s. record { left = s.rest; step = s.step; calls = s.log } };

    ghost invariant = { λ s. 1 ≤ s.step };
}

impl MemSource {
    /// A source of these bytes. Call number k, counted from 0, fails exactly where k is in `fails`.
    pub fn new(bytes: Bytes, step: usize, fails: Numbers) -> Self
        requires { 1 ≤ step }
        ensures { result ≡ feed_of bytes step fails }
    {
        Self {
            rest: Rest::new(bytes),
            step,
            log: CallLog::new(fails),
        }
    }
}

impl Source for MemSource {
    ghost left = { λ s. Some s.left };

    ghost faults = { λ s. s.calls.faults };

    fn read(&mut self, buf: &mut [u8]) -> Result<usize, Failed>
        requires { 0 < length buf.old }
        ensures bound { ReadsAtMost result buf.new }
        ensures bytes { ReadConsumes (Some self.old.left) (Some self.new.left) result buf.new }
        ensures cause { HasCause self.old.calls.faults self.new.calls.faults result }

        // Which calls fail, and what each call gives and leaves.
        ensures fails { IsErr result ↔ Contains self.old.calls.fails self.old.calls.next }
        ensures given { IsGiven (length buf.old) self.old self.new result }
    {
        if self.log.is_due() {
            return Err(self.log.fail());
        }
        self.log.pass();
        Ok(self.rest.give(buf, self.step))
    }
}
