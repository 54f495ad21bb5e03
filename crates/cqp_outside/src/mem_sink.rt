ghost use Rattle.std.specs.Prelude.{◌≡◌, ◌<◌, ◌≤◌, ◌↔◌, length, Some, IfOk, IsErr};
ghost use Rattle.std.specs.Io.KnownBytes.{WriteAppends};
ghost use Rattle.cqp_outside.specs.Causes.{HasCause};
ghost use Rattle.cqp_outside.specs.Taken.{WritesSome};
ghost use Rattle.cqp_outside.specs.Tray.{empty_tray, IsFailing, IsTaken};

use crate::call_log::CallLog;
use crate::failed::Failed;
use crate::lists::Numbers;
use crate::sink::Sink;
use cqp_lists::NoMemory;
use std::alloc::Global;
use std::marker::Model;

/// A sink into memory that takes at most `step` bytes a call, and fails at the calls that it is
/// told and once it is full. Contracts see the record `Tray`.
#[derive(Drop)]
pub struct MemSink {
    // As long as the sink has room, and filled up to `len`.
    buffer: Vec<u8>,
    len: usize,
    step: usize,
    log: CallLog,
}

impl Model for MemSink {
    ghost use Rattle.std.specs.Prelude.{◌≤◌, take, vec_len};
    ghost use Rattle.cqp_outside.specs.Tray.{Tray};

    ghost Value = { Tray };

    ghost view = { λ s. record {
      bytes = take s.len s.buffer.items;
      room = vec_len s.buffer;
      step = s.step;
      calls = s.log;
    } };

    ghost invariant = { λ s. (s.len ≤ vec_len s.buffer) × (1 ≤ s.step) };
}

impl MemSink {
    /// An empty sink for `room` bytes, all of whose memory is taken here.
    /// Call number k, counted from 0, fails exactly where k is in `fails` or the sink is full.
    pub fn new(alloc: Global, room: usize, step: usize, fails: Numbers) -> Result<Self, NoMemory>
        requires { 1 ≤ step }
        ensures { IfOk result (λ sink. sink ≡ empty_tray room step fails) }
    {
        Ok(Self {
            buffer: vec![in alloc; 0; room]?,
            len: 0,
            step,
            log: CallLog::new(fails),
        })
    }

    /// The bytes written so far.
    pub fn bytes(&self) -> &[u8]
        ensures { result.now ≡ self.now.bytes }
    {
        &self.buffer[..self.len]
    }
}

impl Sink for MemSink {
    ghost written = { λ s. Some s.bytes };

    ghost faults = { λ s. s.calls.faults };

    fn write(&mut self, piece: &[u8]) -> Result<usize, Failed>
        requires { 0 < length piece.now }
        ensures bound { WritesSome result piece.now }
        ensures bytes { WriteAppends (Some self.old.bytes) (Some self.new.bytes) result piece.now }
        ensures cause { HasCause self.old.calls.faults self.new.calls.faults result }

        // Which calls fail, and what each call takes and leaves.
        ensures fails { IsErr result ↔ IsFailing self.old }
        ensures taken { IsTaken piece.now self.old self.new result }
    {
        let room = self.buffer.len() - self.len;
        if self.log.is_due() || room == 0 {
            return Err(self.log.fail());
        }
        self.log.pass();
        let count = self.step.min(piece.len()).min(room);
        self.buffer[self.len..self.len + count].copy_from_slice(&piece[..count]);
        self.len += count;
        Ok(count)
    }
}
