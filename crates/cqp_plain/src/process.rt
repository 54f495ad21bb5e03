//! What is known of each checked process.

ghost use Rattle.std.specs.Prelude.{◌≡◌, ◌+◌, ◌<◌, ◌≤◌, ◌^◌, true};
ghost use Rattle.cqp_syntax.specs.Listing.{root};
ghost use Rattle.cqp_syntax.specs.Measures.{need, size};
ghost use Rattle.cqp_engine.specs.Progress.{IsSound};
ghost use Rattle.cqp_plain.specs.Written.{HasLines};

use cqp_paths::{safe_laws, written_laws};
use cqp_types::Typed;

/// The process is sound, so that it may be run, it is so small that the entries of a path can be
/// counted, and they have lines where their numbers are in range. It does nothing.
pub(crate) fn process_laws(typed: &Typed)
    ensures sound { IsSound (root typed.now) }
    ensures short { size (root typed.now) + 1 < 2 ^ 32 }
    ensures lines { HasLines (root typed.now) }
{
    safe_laws();
    written_laws();
    typed.proc().len();
}
