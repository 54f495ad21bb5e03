//! Texts that are accepted: a text is read, expanded and checked.

ghost use Rattle.std.specs.Prelude.{◌≡◌, IfOk, IfErr, Err};
ghost use Rattle.cqp_grammar.specs.Trees.{ProgramTree};
ghost use Rattle.cqp_program.specs.Programs.{IsProgramListing};
ghost use Rattle.cqp_syntax.specs.Listing.{Listing};
ghost use Rattle.cqp_expand.specs.Outcomes.{Ends};
ghost use Rattle.cqp_types.specs.Checked.{IsChecked};
ghost use Rattle.cqp_types.specs.Verdict.{Checks};
ghost use Rattle.cqp_tool.specs.Accepting.{Accepts, RefusesProcess, RefusesProgram, RefusesText};
ghost use Rattle.cqp_tool.specs.Accepting.{TellsEnd, TellsScope, TellsUntyped, refusal_of};
ghost use Rattle.cqp_tool.specs.Lines.{line_at};
ghost use Rattle.cqp_tool.specs.Replies.{bytes_in};
ghost use Rattle.cqp_tool.specs.Texts.{IsAccepted};

use crate::NoMemory;
use crate::lines::{TEXT_LIMIT, fault_text, need_line};
use crate::reply::{Refusal, Reply, says, tells, tells_at};
use crate::status::Status;
use cqp_expand::{ExpandEnd, expand};
use cqp_parse::{ParseEnd, parse};
use cqp_program::Program;
use cqp_syntax::Proc;
use cqp_types::{TypeEnd, Typed, check};
use std::alloc::{AllocError, Global};

/// The process of a text that is accepted, or why it isn't.
pub(crate) fn accept(alloc: Global, text: &[u8]) -> Result<Typed, Refusal>
    ensures accepted { IfOk result (λ typed. IsAccepted text.now typed) }
    ensures refused { IfErr result (RefusesText text.now) }
{
    if text.len() > TEXT_LIMIT {
        let reply = says(Status::LimitRefused, "limit text 65536\n");
        return Err(Refusal::Told { reply });
    }
    match parse(alloc, text) {
        Ok(program) => accept_program(alloc, &program),
        Err(end) => Err(refusal(unread(alloc, end))),
    }
}

// The process of a program that is accepted.
fn accept_program(alloc: Global, program: &Program) -> Result<Typed, Refusal>
    ensures accepted { IfOk result (λ typed. (t : ProgramTree) → IsProgramListing program.now t
        → Accepts t typed) }
    ensures refused { IfErr result (λ end. (t : ProgramTree) → IsProgramListing program.now t
        → RefusesProgram t end) }
{
    match expand(alloc, program) {
        Ok(proc) => accept_process(alloc, proc),
        Err(end) => Err(refusal(unexpanded(alloc, end))),
    }
}

// The process, where it is accepted.
fn accept_process(alloc: Global, proc: Proc) -> Result<Typed, Refusal>
    ensures accepted { IfOk result (λ typed. (typed ≡ proc) × IsChecked typed) }
    ensures refused { IfErr result (RefusesProcess proc) }
{
    match check(alloc, proc) {
        Ok(typed) => Ok(typed),
        Err(end) => Err(refusal(untyped(alloc, end))),
    }
}

// The refusal that the reply tells, if there was memory for it.
fn refusal(reply: Result<Reply, NoMemory>) -> Refusal
    ensures { result ≡ refusal_of reply }
{
    match reply {
        Ok(reply) => Refusal::Told { reply },
        Err(_) => Refusal::NoMemory,
    }
}

// The reply to a text that gives no program.
fn unread(alloc: Global, end: ParseEnd) -> Result<Reply, NoMemory>
    ensures { IfOk result (TellsEnd end) }
{
    match end {
        ParseEnd::Refused { at } => tells_at(alloc, Status::TextRefused, "text refused", at),
        ParseEnd::Deep { at } => tells_at(alloc, Status::LimitRefused, "limit depth 100", at),
        ParseEnd::NoMemory => Err(AllocError),
    }
}

// The reply to a program that expands to no process.
fn unexpanded(alloc: Global, end: ExpandEnd) -> Result<Reply, NoMemory>
    ensures { IfOk result (λ reply. (t : ProgramTree) → Ends t end → TellsScope t reply) }
{
    match end {
        ExpandEnd::Unbound { at } => unscoped(alloc, "unbound name", at),
        ExpandEnd::UnknownDef { at } => unscoped(alloc, "unknown definition", at),
        ExpandEnd::Arity { at } => unscoped(alloc, "wrong number of arguments", at),
        ExpandEnd::Twice { at } => unscoped(alloc, "name twice", at),
        ExpandEnd::ParamType { at } => unscoped(alloc, "wrong argument type", at),
        ExpandEnd::Large => Ok(says(Status::LimitRefused, "limit nodes 20000\n")),
        ExpandEnd::NoMemory => Err(AllocError),
    }
}

// The reply to a program with a fault of scope.
fn unscoped(alloc: Global, what: &str, at: u32) -> Result<Reply, NoMemory>
    ensures status { IfOk result (λ reply. reply.status ≡ Status.TextRefused) }
    ensures text { IfOk result (λ reply. bytes_in reply.text ≡ line_at what.now at) }
{
    tells_at(alloc, Status::TextRefused, what, at)
}

// The reply to a process that isn't taken.
fn untyped(alloc: Global, end: TypeEnd) -> Result<Reply, NoMemory>
    requires { (l : Listing) × Checks l (Err end) }
    ensures { IfOk result (λ reply. (l : Listing) → Checks l (Err end) → TellsUntyped l reply) }
{
    match end {
        TypeEnd::Fault { node, kind, given } => {
            tells_at(
                alloc,
                Status::TypeRefused,
                fault_text(kind),
                given.pos(node),
            )
        }
        TypeEnd::TooManyQubits { need, given: _ } => {
            Ok(tells(Status::LimitRefused, need_line(alloc, need)?))
        }
        TypeEnd::NoMemory => Err(AllocError),
    }
}
