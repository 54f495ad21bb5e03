//! Traces that are given: they are read, and made again.

ghost use Rattle.std.specs.Prelude.{◌≡◌, ◌<◌, ◌^◌, length, option_map, IfOk, IfSome};
ghost use Rattle.cqp_syntax.specs.Listing.{root};
ghost use Rattle.cqp_trace.specs.declared.form.Form.TheVariants.{Current, Old};
ghost use Rattle.cqp_trace.specs.Text.{trace_text};
ghost use Rattle.cqp_trace.specs.Writable.{IsWritable};
ghost use Rattle.cqp_tool.specs.Given.{TellsCause, TellsMade, TellsUnlawful};
ghost use Rattle.cqp_tool.specs.Replies.{bytes_in};
ghost use Rattle.cqp_tool.specs.Traces.{TellsPart, entries_line};

use crate::NoMemory;
use crate::lines::{entries_line, refused_line};
use crate::reply::{Reply, says, tells};
use crate::status::Status;
use cqp_plain::{ReplayEnd, replay};
use cqp_trace::{Trace, TraceEnd, read_old, read_trace, trace_text};
use cqp_types::Typed;
use std::alloc::{AllocError, Global};

/// The reply of `replay` to the text of a trace.
pub(crate) fn replayed(alloc: Global, typed: &Typed, text: Option<&[u8]>) -> Result<Reply, NoMemory>
    requires { IfSome text (λ text. length text.now < 2 ^ 31) }
    ensures { IfOk result (λ reply. TellsPart Current entries_line (root typed.now)
        (option_map (λ text. text.now) text.entry) reply.status (bytes_in reply.text)) }
{
    let Some(text) = text else {
        return Ok(says(Status::TraceRefused, "trace Missing\n"));
    };
    match read_trace(alloc, text) {
        Ok(trace) => made_again(alloc, typed, &trace),
        Err(end) => unread(alloc, end),
    }
}

/// The reply of `upgrade` to the old text of a trace.
pub(crate) fn upgraded(alloc: Global, typed: &Typed, text: Option<&[u8]>) -> Result<Reply, NoMemory>
    requires { IfSome text (λ text. length text.now < 2 ^ 31) }
    ensures { IfOk result (λ reply. TellsPart Old trace_text (root typed.now)
        (option_map (λ text. text.now) text.entry) reply.status (bytes_in reply.text)) }
{
    let Some(text) = text else {
        return Ok(says(Status::TraceRefused, "trace Missing\n"));
    };
    match read_old(alloc, text) {
        Ok(trace) => printed_anew(alloc, typed, &trace),
        Err(end) => unread(alloc, end),
    }
}

// How many entries a trace has, where it is lawful.
fn made_again(alloc: Global, typed: &Typed, trace: &Trace) -> Result<Reply, NoMemory>
    ensures { IfOk result (TellsMade entries_line (root typed.now) trace.now) }
{
    match replay(alloc, typed, trace) {
        Ok(replayed) => {
            let bytes = entries_line(alloc, replayed.entries)?;
            Ok(tells(Status::Done, bytes))
        }
        Err(end) => unlawful(alloc, trace, end),
    }
}

// The text of a trace, where it is lawful.
fn printed_anew(alloc: Global, typed: &Typed, trace: &Trace) -> Result<Reply, NoMemory>
    requires { IsWritable trace.now }
    ensures { IfOk result (TellsMade trace_text (root typed.now) trace.now) }
{
    match replay(alloc, typed, trace) {
        Ok(_) => {
            let bytes = trace_text(alloc, trace)?;
            Ok(tells(Status::Done, bytes))
        }
        Err(end) => unlawful(alloc, trace, end),
    }
}

// The reply to a trace that isn't lawful.
fn unlawful(alloc: Global, trace: &Trace, end: ReplayEnd) -> Result<Reply, NoMemory>
    ensures { IfOk result (TellsUnlawful trace.now end) }
{
    let bytes = match end {
        ReplayEnd::NotStep { line } => refused_line(alloc, "NotStep", line as usize)?,
        ReplayEnd::NotEnd { line } => refused_line(alloc, "NotEnd", line as usize)?,
        ReplayEnd::WrongWeight { .. } => {
            refused_line(alloc, "WrongWeight", trace.entries.as_slice().len() + 2)?
        }
        ReplayEnd::NoMemory => return Err(AllocError),
    };
    Ok(tells(Status::TraceRefused, bytes))
}

// The reply to a text that is that of no trace.
fn unread(alloc: Global, end: TraceEnd) -> Result<Reply, NoMemory>
    ensures { IfOk result (TellsCause end) }
{
    match end {
        TraceEnd::Refused { line } => {
            let bytes = refused_line(alloc, "Refused", line as usize)?;
            Ok(tells(Status::TraceRefused, bytes))
        }
        TraceEnd::NoMemory => Err(AllocError),
    }
}
