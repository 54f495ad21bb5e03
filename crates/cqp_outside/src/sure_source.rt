ghost use Rattle.std.specs.Prelude.{◌≡◌, ◌<◌, length, min, Some};
ghost use Rattle.std.specs.Io.{ReadsAtMost};
ghost use Rattle.std.specs.Io.KnownBytes.{ReadConsumes};
ghost use Rattle.cqp_outside.specs.Causes.{HasCause};

use crate::failed::Failed;
use crate::lists::Bytes;
use crate::rest::Rest;
use crate::source::Source;
use std::marker::Model;

/// A source over bytes in memory that never fails. Contracts see the bytes not yet given.
#[derive(Drop)]
pub struct SureSource {
    rest: Rest,
}

impl Model for SureSource {
    ghost use Rattle.std.specs.Prelude.{List, ℕ};

    ghost Value = { List ℕ };

    ghost view = { λ s. s.rest };
}

impl SureSource {
    /// A source of these bytes.
    pub fn new(bytes: Bytes) -> Self
        ensures { result ≡ bytes }
    {
        Self {
            rest: Rest::new(bytes),
        }
    }
}

impl Source for SureSource {
    ghost left = { λ s. Some s };

    ghost faults = { λ _. 0 };

    fn read(&mut self, buf: &mut [u8]) -> Result<usize, Failed>
        requires { 0 < length buf.old }
        ensures bound { ReadsAtMost result buf.new }
        ensures bytes { ReadConsumes (Some self.old) (Some self.new) result buf.new }
        ensures cause { HasCause 0 0 result }
        ensures sure { result ≡ Ok (min (length buf.old) (length self.old)) }
    {
        Ok(self.rest.give(buf, buf.len()))
    }
}
