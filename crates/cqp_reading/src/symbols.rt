//! What a symbol does, by what is awaited. `false` where it is refused.

ghost use Rattle.std.specs.Prelude.{◌≡◌, ◌<◌, ◌^◌, IfOk};
ghost use Rattle.std.specs.Option.{option_map};
ghost use Rattle.std.specs.Bool.{then_some};
ghost use Rattle.cqp_reading.specs.declared.awaits.Awaits.TheVariants.{AfterSum, ChanOpen};
ghost use Rattle.cqp_reading.specs.DraftLists.{is_list, top, weight, stand};
ghost use Rattle.cqp_reading.specs.Closing.{expr_read, type_place};
ghost use Rattle.cqp_reading.specs.Symbols.{at_equals, at_comma};
ghost use Rattle.cqp_reading.specs.Symbols.{item_read, at_colon, at_applies, at_bar, at_plus};
ghost use Rattle.cqp_reading.specs.Symbols.{mark_place, measured_more, left_read};

use crate::NoMemory;
use crate::awaits::Awaits;
use crate::draft::Draft;
use crate::frame::Frame;
use crate::names::one;
use crate::standing::{expr_read, go_on, into};
use crate::types::{type_followed, type_place};
use cqp_grammar::SymbolKind;
use cqp_program::{Kind, Occs};

/// `^`.
pub(crate) fn at_caret<'a>(
    draft: &mut Draft<'a>,
    next: &mut Awaits<'a>,
    awaits: Awaits<'a>,
) -> Result<bool, NoMemory>
    requires few { weight draft.old < 2 ^ 31 }
    ensures { IfOk result (λ may. then_some may (stand next.new draft.new)
        ≡ option_map (stand ChanOpen) (type_place awaits.entry draft.old)) }
{
    if !type_place(draft, awaits)? {
        return Ok(false);
    }
    go_on(next, Awaits::ChanOpen)
}

/// `=`.
pub(crate) fn at_equals<'a>(
    draft: &mut Draft<'a>,
    next: &mut Awaits<'a>,
    awaits: Awaits<'a>,
) -> Result<bool, NoMemory>
    ensures { IfOk result (λ may. then_some may (stand next.new draft.new)
        ≡ at_equals awaits.entry draft.old) }
{
    match awaits {
        Awaits::DefEquals { name, params } => {
            into(
                draft,
                next,
                Frame::Body { name, params },
                Awaits::PrefixWanted,
            )
        }
        awaits => left_read(draft, next, awaits),
    }
}

/// Ends the left side of a comparison.
fn left_read<'a>(
    draft: &mut Draft<'a>,
    next: &mut Awaits<'a>,
    awaits: Awaits<'a>,
) -> Result<bool, NoMemory>
    ensures { IfOk result (λ may. then_some may (stand next.new draft.new)
        ≡ left_read (expr_read awaits.entry draft.old)) }
{
    match expr_read(draft, awaits)? {
        Some(Frame::Left { at }) => into(draft, next, Frame::RightSide { at }, Awaits::ItemWanted),
        _ => Ok(false),
    }
}

/// `,`.
pub(crate) fn at_comma<'a>(
    draft: &mut Draft<'a>,
    next: &mut Awaits<'a>,
    awaits: Awaits<'a>,
) -> Result<bool, NoMemory>
    requires few { weight draft.old < 2 ^ 31 }
    ensures { IfOk result (λ may. then_some may (stand next.new draft.new)
        ≡ at_comma awaits.entry draft.old) }
{
    match awaits {
        Awaits::AfterType => type_followed(draft, next),
        Awaits::CallAfter { called, args } => go_on(next, Awaits::CallWanted { called, args }),
        Awaits::ExprNamed { name } => {
            let qubits = one(draft.alloc(), name)?;
            go_on(next, Awaits::AppliedWanted { qubits })
        }
        Awaits::AppliedAfter { qubits } => go_on(next, Awaits::AppliedWanted { qubits }),
        Awaits::MeasuredAfter { at, qubits } => go_on(next, measured_more(draft, at, qubits)),
        Awaits::AfterSum => item_read(draft, next),
        _ => Ok(false),
    }
}

/// What is awaited behind measured qubits and a comma.
fn measured_more<'a>(draft: &Draft<'a>, at: u32, qubits: Occs<'a>) -> Awaits<'a>
    ensures { result ≡ measured_more (is_list (top draft.now)) at qubits.entry }
{
    if draft.is_in_list() {
        Awaits::MeasuredComma { at, qubits }
    } else {
        Awaits::MeasuredWanted { at, qubits }
    }
}

/// Ends an item of a list that has another behind it.
fn item_read<'a>(draft: &mut Draft<'a>, next: &mut Awaits<'a>) -> Result<bool, NoMemory>
    requires few { weight draft.old < 2 ^ 31 }
    ensures { IfOk result (λ may. then_some may (stand next.new draft.new)
        ≡ item_read (expr_read AfterSum draft.old)) }
{
    match expr_read(draft, Awaits::AfterSum)? {
        Some(Frame::List { chan, args }) => {
            let args = args + 1;
            into(draft, next, Frame::List { chan, args }, Awaits::ItemWanted)
        }
        Some(_frame) => Ok(false),
        None => Ok(false),
    }
}

/// `:`.
pub(crate) fn at_colon<'a>(
    draft: &mut Draft<'a>,
    next: &mut Awaits<'a>,
    awaits: Awaits<'a>,
) -> Result<bool, NoMemory>
    ensures { IfOk result (λ may. then_some may (stand next.new draft.new)
        ≡ at_colon awaits.entry draft.old) }
{
    match awaits {
        Awaits::ParamColon { params, name } => {
            into(
                draft,
                next,
                Frame::Param { params, name },
                Awaits::TypeWanted,
            )
        }
        Awaits::NewColon { at, name } => {
            into(
                draft,
                next,
                Frame::Annotation { at, name },
                Awaits::TypeWanted,
            )
        }
        _ => Ok(false),
    }
}

/// `*=`.
pub(crate) fn at_applies<'a>(
    draft: &mut Draft<'a>,
    next: &mut Awaits<'a>,
    awaits: Awaits<'a>,
) -> Result<bool, NoMemory>
    ensures { IfOk result (λ may. then_some may (stand next.new draft.new)
        ≡ at_applies awaits.entry draft.old) }
{
    let qubits = match awaits {
        Awaits::ExprNamed { name } => one(draft.alloc(), name)?,
        Awaits::AppliedAfter { qubits } => qubits,
        _ => return Ok(false),
    };
    into(draft, next, Frame::Operator { qubits }, Awaits::AtomWanted)
}

/// `|`, with its offset.
pub(crate) fn at_bar<'a>(
    draft: &mut Draft<'a>,
    next: &mut Awaits<'a>,
    awaits: Awaits<'a>,
    at: u32,
) -> Result<bool, NoMemory>
    ensures { IfOk result (λ may. then_some may (stand next.new draft.new)
        ≡ at_bar awaits.entry draft.old at) }
{
    match awaits {
        Awaits::AfterPrefix => into(draft, next, Frame::Right { at }, Awaits::PrefixWanted),
        _ => Ok(false),
    }
}

/// `+`, with its offset.
pub(crate) fn at_plus<'a>(
    draft: &mut Draft<'a>,
    next: &mut Awaits<'a>,
    awaits: Awaits<'a>,
    at: u32,
) -> Result<bool, NoMemory>
    ensures { IfOk result (λ may. then_some may (stand next.new draft.new)
        ≡ at_plus awaits.entry draft.old at) }
{
    match awaits {
        Awaits::ExprNamed { name } => draft.emit(Kind::Name { name: name.name }, name.at)?,
        Awaits::AfterSum => {}
        _ => return Ok(false),
    }
    into(draft, next, Frame::Plus { at }, Awaits::AtomWanted)
}

/// `.`, `?` and `!`.
pub(crate) fn mark_place<'a>(
    next: &mut Awaits<'a>,
    awaits: Awaits<'a>,
    mark: SymbolKind,
) -> Result<bool, NoMemory>
    ensures { IfOk result (λ may. then_some may next.new ≡ mark_place awaits.entry mark) }
{
    match (awaits, mark) {
        (Awaits::DotWanted, SymbolKind::Dot) => go_on(next, Awaits::PrefixWanted),
        (Awaits::Named { name: chan }, SymbolKind::Question) => {
            go_on(next, Awaits::InputOpen { chan })
        }
        (Awaits::Named { name: chan }, SymbolKind::Bang) => {
            go_on(next, Awaits::OutputOpen { chan })
        }
        (_awaits, _) => Ok(false),
    }
}
