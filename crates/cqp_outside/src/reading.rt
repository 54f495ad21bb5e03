//! A whole source, read within a limit. Contracts see how the read ended by `IsRead`.
ghost use Rattle.std.specs.Prelude.{◌≡◌, ◌<◌, ◌≤◌, ◌^◌, IsErrOf};
ghost use Rattle.cqp_outside.specs.Causes.{Rose};
ghost use Rattle.cqp_outside.specs.ReadEnd.{IsRead};

use crate::failed::Failed;
use crate::lists::Bytes;
use crate::source::Source;
use cqp_lists::NoMemory;
use std::alloc::Global;

/// How many bytes are asked for at once.
const CHUNK: usize = 4096;

/// Why a source wasn't read whole.
#[derive(Clone, Copy, Debug, Eq, PartialEq)]
pub enum ReadEnd {
    /// A call of the source failed.
    Fault,
    /// More bytes came than the limit allows.
    TooLong,
    /// Memory is wanting.
    NoMemory,
}

impl From<Failed> for ReadEnd {
    ghost use Rattle.std.specs.Prelude.{◌≡◌};
    ghost use Rattle.cqp_outside.specs.declared.reading.ReadEnd.TheVariants.{Fault};

    ghost from_gives = { λ _ e. e ≡ Fault };

    fn from(_failed: Failed) -> Self {
        Self::Fault
    }
}

impl From<NoMemory> for ReadEnd {
    ghost use Rattle.std.specs.Prelude.{◌≡◌};
    ghost use Rattle.cqp_outside.specs.declared.reading.ReadEnd.TheVariants.{NoMemory};

    ghost from_gives = { λ _ e. e ≡ NoMemory };

    fn from(_error: NoMemory) -> Self {
        Self::NoMemory
    }
}

/// Reads all bytes that the source has left, at most `limit`. It never asks for more than one byte
/// past the limit. The bytes taken before an error are lost.
pub fn read_all<S: Source>(alloc: Global, source: &mut S, limit: usize) -> Result<Bytes, ReadEnd>
    requires { limit < 2 ^ 31 }
    ensures read { IsRead limit (S.left source.old) (S.left source.new) result }
    ensures fault { IsErrOf result ReadEnd.Fault
        → Rose (S.faults source.old) (S.faults source.new) }
    ensures later { S.faults source.old ≤ S.faults source.new }
{
    let mut bytes = Bytes::new(alloc);
    let mut buffer = [0; CHUNK];
    loop {
        let chunk = &mut buffer[..CHUNK.min(limit + 1 - bytes.len())];
        let count = source.read(chunk)?;
        if count == 0 {
            return Ok(bytes);
        }
        if limit - bytes.len() < count {
            return Err(ReadEnd::TooLong);
        }
        bytes.extend_from_slice(&chunk[..count])?;
    }
}
