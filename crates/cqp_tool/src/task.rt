//! What is done for the words.

ghost use Rattle.std.specs.Prelude.{◌≡◌, ◌≤◌, length, option_map, true, IfSome};
ghost use Rattle.cqp_trace.specs.Text.{line};
ghost use Rattle.cqp_tool.specs.Inputs as inputs;
ghost use Rattle.cqp_tool.specs.Words.{reads, task_of, without_workers};

use crate::cut::cut;
use crate::lines::TEXT_LIMIT;
use cqp_words::{Choice, Request};

/// The most bytes of an input with a trace.
const INPUT_LIMIT: usize = 2_097_152;

/// What is done for the words.
#[derive(Debug, Drop)]
pub enum Task {
    /// The verdict on a text is told.
    Check,
    /// The process of a text is run, without workers, and outcomes are chosen so.
    Run { choice: Choice },
    /// A trace of a text's process is made again.
    Replay,
    /// So is a trace with an old text, which is printed anew.
    Upgrade,
    /// The generator's program with so many rounds is run, and its run is summed up.
    Gen { rounds: u32 },
}

/// The task that a request is. `None` where it isn't served yet.
pub(crate) fn task_of(request: Request) -> Option<Task>
    ensures { result ≡ task_of request }
{
    match request {
        Request::Check => Some(Task::Check),
        Request::Run { workers, choice } => without_workers(workers, Task::Run { choice }),
        Request::Replay => Some(Task::Replay),
        Request::Upgrade => Some(Task::Upgrade),
        Request::Gen { number, workers } => without_workers(workers, Task::Gen { rounds: number }),
        Request::State { .. } | Request::Watch { .. } | Request::Bundle => None,
    }
}

// The task, where it has no workers.
fn without_workers(workers: u32, task: Task) -> Option<Task>
    ensures { result ≡ without_workers workers task }
{
    if workers == 0 { Some(task) } else { None }
}

impl Task {
    /// The most bytes that are read for it.
    pub(crate) fn limit(&self) -> usize
        ensures { result ≡ inputs.limit_of self.now }
    {
        match self {
            Task::Check | Task::Run { choice: _ } => TEXT_LIMIT,
            Task::Replay | Task::Upgrade => INPUT_LIMIT,
            Task::Gen { rounds: _ } => 0,
        }
    }

    /// What is said of an input that is longer.
    pub(crate) fn limit_text(&self) -> &'static str
        ensures { result.now ≡ line (inputs.limit_text self.now) }
    {
        match self {
            Task::Check | Task::Run { choice: _ } => "limit text 65536\n",
            Task::Replay | Task::Upgrade => "limit input 2097152\n",
            Task::Gen { rounds: _ } => "limit text 65536\n",
        }
    }

    /// The program text of an input, and the trace's text where it has one.
    pub(crate) fn parts<'a>(&self, input: &'a [u8]) -> (&'a [u8], Option<&'a [u8]>)
        requires { reads self.now ≡ true }
        ensures text { result.0.now ≡ inputs.text_of self.now input.now }
        ensures trace { option_map (λ t. t.now) result.1 ≡ inputs.trace_of self.now input.now }
        ensures within { IfSome result.1 (λ t. length t.now ≤ length input.now) }
    {
        match self {
            Task::Replay | Task::Upgrade => cut(input),
            _ => (input, None),
        }
    }
}
