//! What the words of a choice do, by what is awaited. `false` where they are refused.

ghost use Rattle.std.specs.Prelude.{◌≡◌, IfOk};
ghost use Rattle.std.specs.Option.{option_map};
ghost use Rattle.std.specs.Bool.{then_some};
ghost use Rattle.cqp_reading.specs.declared.frame.Frame.TheVariants as frame;
ghost use Rattle.cqp_reading.specs.declared.awaits.Awaits.TheVariants.{ItemWanted};
ghost use Rattle.cqp_reading.specs.DraftLists.{top, popped, stand, opened};
ghost use Rattle.cqp_reading.specs.Closing.{expr_read, prefix_place};
ghost use Rattle.cqp_reading.specs.Tokens.{right_read, at_else, else_read};
ghost use Rattle.cqp_reading.specs.Tokens.{branch_word};

use crate::NoMemory;
use crate::awaits::Awaits;
use crate::draft::Draft;
use crate::frame::Frame;
use crate::standing::{expr_read, into, prefix_place};
use cqp_grammar::ReservedWord;

/// A word of a choice.
pub(crate) fn branch_word<'a>(
    draft: &mut Draft<'a>,
    next: &mut Awaits<'a>,
    awaits: Awaits<'a>,
    reserved: ReservedWord,
    at: u32,
) -> Result<bool, NoMemory>
    ensures { IfOk result (λ may. then_some may (stand next.new draft.new)
        ≡ branch_word awaits.entry draft.old reserved at) }
{
    match reserved {
        ReservedWord::If => at_if(draft, next, awaits, at),
        ReservedWord::Then => at_then(draft, next, awaits),
        ReservedWord::Else => at_else(draft, next, awaits),
        _ => Ok(false),
    }
}

/// `if`, with its offset.
fn at_if<'a>(
    draft: &mut Draft<'a>,
    next: &mut Awaits<'a>,
    awaits: Awaits<'a>,
    at: u32,
) -> Result<bool, NoMemory>
    ensures { IfOk result (λ may. then_some may (stand next.new draft.new)
        ≡ option_map (λ s. stand ItemWanted (opened (frame.Left at) s))
        (prefix_place awaits.entry draft.old)) }
{
    if !prefix_place(draft, awaits)? {
        return Ok(false);
    }
    into(draft, next, Frame::Left { at }, Awaits::ItemWanted)
}

/// `then`.
fn at_then<'a>(
    draft: &mut Draft<'a>,
    next: &mut Awaits<'a>,
    awaits: Awaits<'a>,
) -> Result<bool, NoMemory>
    ensures { IfOk result (λ may. then_some may (stand next.new draft.new)
        ≡ right_read (expr_read awaits.entry draft.old)) }
{
    match expr_read(draft, awaits)? {
        Some(Frame::RightSide { at }) => {
            into(draft, next, Frame::Then { at }, Awaits::PrefixWanted)
        }
        _ => Ok(false),
    }
}

/// `else`.
fn at_else<'a>(
    draft: &mut Draft<'a>,
    next: &mut Awaits<'a>,
    awaits: Awaits<'a>,
) -> Result<bool, NoMemory>
    ensures { IfOk result (λ may. then_some may (stand next.new draft.new)
        ≡ at_else awaits.entry draft.old) }
{
    match awaits {
        Awaits::ElseWanted => else_read(draft, next),
        _ => Ok(false),
    }
}

/// Opens the branch behind `else`.
fn else_read<'a>(draft: &mut Draft<'a>, next: &mut Awaits<'a>) -> Result<bool, NoMemory>
    ensures { IfOk result (λ may. then_some may (stand next.new draft.new)
        ≡ else_read (top draft.old) (popped draft.old)) }
{
    match draft.close() {
        Some(Frame::Then { at }) => into(draft, next, Frame::Else { at }, Awaits::PrefixWanted),
        _ => Ok(false),
    }
}
