//! What is done with a process that is accepted.

ghost use Rattle.std.specs.Prelude.{◌≡◌, ◌<◌, ◌^◌, length, option_map, IfOk, IfSome};
ghost use Rattle.cqp_syntax.specs.Listing.{root};
ghost use Rattle.cqp_trace.specs.Text.{trace_text};
ghost use Rattle.cqp_plain.specs.Choices.{pick_of, seed_picks};
ghost use Rattle.cqp_tool.specs.Output.{Writes};
ghost use Rattle.cqp_tool.specs.Replies.{bytes_in};
ghost use Rattle.cqp_tool.specs.Summaries.{summary_text};
ghost use Rattle.cqp_tool.specs.Tells.{TellsRun, TellsVerdict, status_of_end};

use crate::NoMemory;
use crate::lines::accepted_line;
use crate::reply::{Reply, tells};
use crate::status::Status;
use crate::summary::summary_text;
use crate::task::Task;
use crate::traces::{replayed, upgraded};
use cqp_plain::chosen_run;
use cqp_syntax::Proc;
use cqp_trace::{End, trace_text};
use cqp_types::Typed;
use cqp_words::Choice;
use std::alloc::Global;

/// Does the task on a process that is accepted, with the text of a trace where one is given.
pub(crate) fn done(
    alloc: Global,
    task: &Task,
    trace: Option<&[u8]>,
    typed: &Typed,
) -> Result<Reply, NoMemory>
    requires { IfSome trace (λ text. length text.now < 2 ^ 31) }
    ensures { IfOk result (λ reply. Writes task.now (option_map (λ text. text.now) trace.entry)
        (root typed.now) reply.status (bytes_in reply.text)) }
{
    match task {
        Task::Check => told(alloc, typed.proc()),
        Task::Run { choice } => run(alloc, typed, choice),
        Task::Replay => replayed(alloc, typed, trace),
        Task::Upgrade => upgraded(alloc, typed, trace),
        Task::Gen { rounds } => summed_up(alloc, typed, *rounds),
    }
}

// The verdict on a process.
fn told(alloc: Global, proc: &Proc) -> Result<Reply, NoMemory>
    ensures { IfOk result (λ reply. (reply.status ≡ Status.Done)
        × TellsVerdict (root proc.now) (bytes_in reply.text)) }
{
    let bytes = accepted_line(alloc, proc.need(), proc.size())?;
    Ok(tells(Status::Done, bytes))
}

// The trace of a process.
fn run(alloc: Global, typed: &Typed, choice: &Choice) -> Result<Reply, NoMemory>
    ensures { IfOk result (λ reply. TellsRun trace_text (pick_of choice.now) (root typed.now)
        reply.status (bytes_in reply.text)) }
{
    let run = chosen_run(alloc, typed, choice)?;
    let bytes = trace_text(alloc, &run.trace)?;
    Ok(tells(status_of_end(run.trace.end), bytes))
}

// The summary of the generator's run. Its number is the seed.
fn summed_up(alloc: Global, typed: &Typed, rounds: u32) -> Result<Reply, NoMemory>
    ensures { IfOk result (λ reply. TellsRun (summary_text rounds) (seed_picks rounds)
        (root typed.now) reply.status (bytes_in reply.text)) }
{
    let choice = Choice::Seed {
        seed: u64::from(rounds),
    };
    let run = chosen_run(alloc, typed, &choice)?;
    let bytes = summary_text(alloc, rounds, &run.trace)?;
    Ok(tells(status_of_end(run.trace.end), bytes))
}

// The status of a run that ends so.
fn status_of_end(end: End) -> Status
    ensures { result ≡ status_of_end end }
{
    match end {
        End::Done { left: _ } => Status::Done,
        End::Stopped { part: _ } => Status::Stopped,
    }
}
