ghost use Rattle.std.specs.Prelude.{◌≡◌, ◌++◌, drop, length, min, take};

use crate::lists::Bytes;
use std::marker::Model;

/// Bytes that are given from the front. Contracts see those not yet given.
#[derive(Drop)]
pub(crate) struct Rest {
    bytes: Bytes,
    at: usize,
}

impl Model for Rest {
    ghost use Rattle.std.specs.Prelude.{◌≤◌, List, ℕ, drop, length};

    ghost Value = { List ℕ };

    ghost view = { λ r. drop r.at r.bytes };

    ghost invariant = { λ r. r.at ≤ length r.bytes };
}

impl Rest {
    pub(crate) fn new(bytes: Bytes) -> Self
        ensures { result ≡ bytes }
    {
        Self { bytes, at: 0 }
    }

    /// Moves the next bytes, at most `most`, into the front of `buf`, and returns how many.
    pub(crate) fn give(&mut self, buf: &mut [u8], most: usize) -> usize
        ensures count { result ≡ min most (min (length buf.old) (length self.old)) }
        ensures moved { self.old ≡ take result buf.new ++ self.new }
        ensures left { self.new ≡ drop result self.old }
    {
        let rest = &self.bytes.as_slice()[self.at..];
        let count = most.min(buf.len()).min(rest.len());
        buf[..count].copy_from_slice(&rest[..count]);
        self.at += count;
        count
    }
}
