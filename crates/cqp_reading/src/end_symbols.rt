//! What `)`, `]`, `}`, `;` and the end of the text do, by what is awaited.

ghost use Rattle.std.specs.Prelude.{◌≡◌, ◌<◌, ◌^◌, IfOk, Some};
ghost use Rattle.std.specs.Bool.{then_some};
ghost use Rattle.cqp_syntax.specs.declared.ty.Ty.TheVariants as ty;
ghost use Rattle.cqp_reading.specs.declared.awaits.Awaits.TheVariants as awaits;
ghost use Rattle.cqp_reading.specs.DraftLists.{stand, top, popped, typed, weight};
ghost use Rattle.cqp_reading.specs.Closing.{process_read, expr_read};
ghost use Rattle.cqp_reading.specs.Symbols.{at_close, called, group_read, parens_read};
ghost use Rattle.cqp_reading.specs.Symbols.{at_close_list};
ghost use Rattle.cqp_reading.specs.Symbols.{empty_read, list_read, act_read, at_semicolon};
ghost use Rattle.cqp_reading.specs.Symbols.{body_read};
ghost use Rattle.cqp_reading.specs.Tokens.{at_end, main_read};

use crate::NoMemory;
use crate::awaits::Awaits;
use crate::closing::{prefix_read, process_read};
use crate::draft::Draft;
use crate::frame::Frame;
use crate::standing::{atom_read, expr_read, go_on, into};
use crate::types::{heading_read, input_read, type_bracketed, type_closed};
use cqp_program::{Kind, Occ, Occs, Params};
use cqp_syntax::Ty;

/// `)`.
pub(crate) fn at_close<'a>(
    draft: &mut Draft<'a>,
    next: &mut Awaits<'a>,
    awaits: Awaits<'a>,
) -> Result<bool, NoMemory>
    ensures { IfOk result (λ may. then_some may (stand next.new draft.new)
        ≡ at_close awaits.entry draft.old) }
{
    match awaits {
        Awaits::ParamsFirst => heading_read(draft, next, Params::new(draft.alloc())),
        Awaits::OpClose { places } => op_read(draft, next, places),
        Awaits::AfterType => type_closed(draft, next),
        Awaits::QbitClose { at, name } => {
            into(draft, next, Frame::Qbit { at, name }, Awaits::PrefixWanted)
        }
        Awaits::CallFirst { called } => call(draft, next, called, Occs::new(draft.alloc())),
        Awaits::CallAfter { called, args } => call(draft, next, called, args),
        Awaits::AfterPrefix => group_read(draft, next),
        awaits => parens_read(draft, next, awaits),
    }
}

/// Ends the type of a gate.
fn op_read<'a>(draft: &mut Draft<'a>, next: &mut Awaits<'a>, places: u32) -> Result<bool, NoMemory>
    ensures { IfOk result (λ may. then_some may (stand next.new draft.new)
        ≡ Some (stand awaits.AfterType (typed (ty.Op places) draft.old))) }
{
    draft.add_type(Ty::Op { places })?;
    go_on(next, Awaits::AfterType)
}

/// Ends a call.
fn call<'a>(
    draft: &mut Draft<'a>,
    next: &mut Awaits<'a>,
    name: Occ<'a>,
    args: Occs<'a>,
) -> Result<bool, NoMemory>
    ensures { IfOk result (λ may. then_some may (stand next.new draft.new)
        ≡ called name.entry args.entry draft.old) }
{
    let Occ { name, at } = name;
    draft.emit(Kind::Call { name, args }, at)?;
    prefix_read(draft, next)
}

/// Ends a process in parentheses.
fn group_read<'a>(draft: &mut Draft<'a>, next: &mut Awaits<'a>) -> Result<bool, NoMemory>
    ensures { IfOk result (λ may. then_some may (stand next.new draft.new)
        ≡ group_read (process_read draft.old)) }
{
    process_read(draft)?;
    match draft.close() {
        Some(Frame::Group) => prefix_read(draft, next),
        _ => Ok(false),
    }
}

/// Ends an expression in parentheses.
fn parens_read<'a>(
    draft: &mut Draft<'a>,
    next: &mut Awaits<'a>,
    awaits: Awaits<'a>,
) -> Result<bool, NoMemory>
    ensures { IfOk result (λ may. then_some may (stand next.new draft.new)
        ≡ parens_read (expr_read awaits.entry draft.old)) }
{
    match expr_read(draft, awaits)? {
        Some(Frame::Sig { at }) => draft.emit(Kind::Sig, at)?,
        Some(Frame::Parens) => {}
        _ => return Ok(false),
    }
    atom_read(draft, next)
}

/// `]`.
pub(crate) fn at_close_list<'a>(
    draft: &mut Draft<'a>,
    next: &mut Awaits<'a>,
    awaits: Awaits<'a>,
) -> Result<bool, NoMemory>
    requires few { weight draft.old < 2 ^ 31 }
    ensures { IfOk result (λ may. then_some may (stand next.new draft.new)
        ≡ at_close_list awaits.entry draft.old) }
{
    match awaits {
        Awaits::ParamsFirst => input_read(draft, next, Params::new(draft.alloc())),
        Awaits::ChanFirst | Awaits::AfterType => type_bracketed(draft, next),
        Awaits::OutputFirst => empty_read(draft, next),
        awaits => list_read(draft, next, awaits),
    }
}

/// Ends a list of no item.
fn empty_read<'a>(draft: &mut Draft<'a>, next: &mut Awaits<'a>) -> Result<bool, NoMemory>
    ensures { IfOk result (λ may. then_some may (stand next.new draft.new)
        ≡ empty_read (top draft.old) (popped draft.old)) }
{
    match draft.close() {
        Some(Frame::List { chan, args }) => {
            into(draft, next, Frame::Out { chan, args }, Awaits::DotWanted)
        }
        Some(_frame) => Ok(false),
        None => Ok(false),
    }
}

/// Ends a list with its last item.
fn list_read<'a>(
    draft: &mut Draft<'a>,
    next: &mut Awaits<'a>,
    awaits: Awaits<'a>,
) -> Result<bool, NoMemory>
    requires few { weight draft.old < 2 ^ 31 }
    ensures { IfOk result (λ may. then_some may (stand next.new draft.new)
        ≡ list_read (expr_read awaits.entry draft.old)) }
{
    match expr_read(draft, awaits)? {
        Some(Frame::List { chan, args }) => {
            let args = args + 1;
            into(draft, next, Frame::Out { chan, args }, Awaits::DotWanted)
        }
        Some(_frame) => Ok(false),
        None => Ok(false),
    }
}

/// `}`.
pub(crate) fn at_close_act<'a>(
    draft: &mut Draft<'a>,
    next: &mut Awaits<'a>,
    awaits: Awaits<'a>,
) -> Result<bool, NoMemory>
    ensures { IfOk result (λ may. then_some may (stand next.new draft.new)
        ≡ act_read (expr_read awaits.entry draft.old)) }
{
    match expr_read(draft, awaits)? {
        Some(Frame::Braces { at }) => into(draft, next, Frame::Act { at }, Awaits::DotWanted),
        _ => Ok(false),
    }
}

/// `;`.
pub(crate) fn at_semicolon<'a>(
    draft: &mut Draft<'a>,
    next: &mut Awaits<'a>,
    awaits: Awaits<'a>,
) -> Result<bool, NoMemory>
    ensures { IfOk result (λ may. then_some may (stand next.new draft.new)
        ≡ at_semicolon awaits.entry draft.old) }
{
    match awaits {
        Awaits::AfterPrefix => body_read(draft, next),
        _ => Ok(false),
    }
}

/// Ends a definition with its body.
fn body_read<'a>(draft: &mut Draft<'a>, next: &mut Awaits<'a>) -> Result<bool, NoMemory>
    ensures { IfOk result (λ may. then_some may (stand next.new draft.new)
        ≡ body_read (process_read draft.old)) }
{
    process_read(draft)?;
    match draft.close() {
        Some(Frame::Body { name, params }) => {
            draft.define(name, params)?;
            go_on(next, Awaits::Definitions)
        }
        _ => Ok(false),
    }
}

/// The end of the text.
#[inline(never)]
pub(crate) fn at_end<'a>(
    draft: &mut Draft<'a>,
    next: &mut Awaits<'a>,
    awaits: Awaits<'a>,
) -> Result<bool, NoMemory>
    ensures { IfOk result (λ may. then_some may (stand next.new draft.new)
        ≡ at_end awaits.entry draft.old) }
{
    match awaits {
        Awaits::AfterPrefix => main_read(draft, next),
        _ => Ok(false),
    }
}

/// Ends the main process, where nothing is open.
fn main_read<'a>(draft: &mut Draft<'a>, next: &mut Awaits<'a>) -> Result<bool, NoMemory>
    ensures { IfOk result (λ may. then_some may (stand next.new draft.new)
        ≡ main_read (process_read draft.old)) }
{
    process_read(draft)?;
    match draft.close() {
        None => go_on(next, Awaits::Finished),
        Some(_) => Ok(false),
    }
}
