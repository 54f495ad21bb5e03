ghost use Rattle.std.specs.Prelude.{ℕ, ◌<◌, List, length, Option};
ghost use Rattle.std.specs.Io.{ReadsAtMost};
ghost use Rattle.std.specs.Io.KnownBytes.{ReadConsumes};
ghost use Rattle.cqp_outside.specs.Causes.{HasCause};

use crate::failed::Failed;

/// What bytes are read from. Contracts see what is left, where it tells that, and a count of its
/// faults.
pub trait Source {
    // The bytes not yet read, where the source tells them.
    ghost left: { Self → Option (List ℕ) };

    // How many calls failed.
    ghost faults: { Self → ℕ };

    /// Moves the next bytes into the front of `buf`, and returns how many. `Ok(0)` comes exactly
    /// where none is left. A failed call takes none.
    fn read(&mut self, buf: &mut [u8]) -> Result<usize, Failed>
        requires { 0 < length buf.old }
        ensures bound { ReadsAtMost result buf.new }
        ensures bytes { ReadConsumes (left self.old) (left self.new) result buf.new }
        ensures cause { HasCause (faults self.old) (faults self.new) result };
}
