ghost use Rattle.std.specs.Prelude.{ℕ, ◌<◌, List, length, Option};
ghost use Rattle.std.specs.Io.KnownBytes.{WriteAppends};
ghost use Rattle.cqp_outside.specs.Causes.{HasCause};
ghost use Rattle.cqp_outside.specs.Taken.{WritesSome};

use crate::failed::Failed;

/// What bytes are written to. Contracts see what was written, where it tells that, and a count of
/// its faults.
pub trait Sink {
    // The bytes written so far, where the sink tells them.
    ghost written: { Self → Option (List ℕ) };

    // How many calls failed.
    ghost faults: { Self → ℕ };

    /// Appends at least one byte from the front of `piece`, and returns how many. A failed call
    /// appends none.
    fn write(&mut self, piece: &[u8]) -> Result<usize, Failed>
        requires { 0 < length piece.now }
        ensures bound { WritesSome result piece.now }
        ensures bytes { WriteAppends (written self.old) (written self.new) result piece.now }
        ensures cause { HasCause (faults self.old) (faults self.new) result };
}
