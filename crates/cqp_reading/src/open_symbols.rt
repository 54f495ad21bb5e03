//! What `(`, `[` and `{` do, by what is awaited. `false` where they are refused.

ghost use Rattle.std.specs.Prelude.{◌≡◌, ◌<◌, ◌^◌, IfOk};
ghost use Rattle.std.specs.Option.{option_map};
ghost use Rattle.std.specs.Bool.{then_some};
ghost use Rattle.cqp_reading.specs.declared.frame.Frame.TheVariants as frame;
ghost use Rattle.cqp_reading.specs.declared.awaits.Awaits.TheVariants.{ChanOpen};
ghost use Rattle.cqp_reading.specs.declared.awaits.Awaits.TheVariants.{ExprWanted};
ghost use Rattle.cqp_reading.specs.DraftLists.{weight, stand, opened};
ghost use Rattle.cqp_reading.specs.Closing.{atom_place, prefix_place};
ghost use Rattle.cqp_reading.specs.Symbols.{at_open, at_open_list};

use crate::NoMemory;
use crate::awaits::Awaits;
use crate::draft::Draft;
use crate::frame::Frame;
use crate::standing::{atom_place, go_on, into, prefix_place};
use crate::types::open_chan;

/// `(`, with its offset.
pub(crate) fn at_open<'a>(
    draft: &mut Draft<'a>,
    next: &mut Awaits<'a>,
    awaits: Awaits<'a>,
    at: u32,
) -> Result<bool, NoMemory>
    requires few { weight draft.old < 2 ^ 31 }
    ensures { IfOk result (λ may. then_some may (stand next.new draft.new)
        ≡ at_open awaits.entry draft.old at) }
{
    match awaits {
        Awaits::DefOpen { name } => into(draft, next, Frame::Heading { name }, Awaits::ParamsFirst),
        Awaits::OpOpen => go_on(next, Awaits::OpNumber),
        Awaits::Named { name } => go_on(next, Awaits::CallFirst { called: name }),
        Awaits::SigOpen { at } => into(draft, next, Frame::Sig { at }, Awaits::ExprWanted),
        Awaits::Definitions | Awaits::PrefixWanted => go_on(next, Awaits::Opened { at }),
        Awaits::Opened { .. } => into(draft, next, Frame::Group, Awaits::Opened { at }),
        awaits => open_parens(draft, next, awaits),
    }
}

/// Opens parentheses round an expression, where an atom may begin.
fn open_parens<'a>(
    draft: &mut Draft<'a>,
    next: &mut Awaits<'a>,
    awaits: Awaits<'a>,
) -> Result<bool, NoMemory>
    requires few { weight draft.old < 2 ^ 31 }
    ensures { IfOk result (λ may. then_some may (stand next.new draft.new)
        ≡ option_map (λ s. stand ExprWanted (opened frame.Parens s))
        (atom_place awaits.entry draft.old)) }
{
    if !atom_place(draft, awaits)? {
        return Ok(false);
    }
    into(draft, next, Frame::Parens, Awaits::ExprWanted)
}

/// `[`.
pub(crate) fn at_open_list<'a>(
    draft: &mut Draft<'a>,
    next: &mut Awaits<'a>,
    awaits: Awaits<'a>,
) -> Result<bool, NoMemory>
    requires few { weight draft.old < 2 ^ 31 }
    ensures { IfOk result (λ may. then_some may (stand next.new draft.new)
        ≡ at_open_list awaits.entry draft.old) }
{
    match awaits {
        Awaits::ChanOpen => open_chan(draft, next),
        Awaits::InputOpen { chan } => into(
            draft,
            next,
            Frame::Params { chan },
            Awaits::ParamsFirst,
        ),
        Awaits::OutputOpen { chan } => {
            into(
                draft,
                next,
                Frame::List { chan, args: 0 },
                Awaits::OutputFirst,
            )
        }
        _awaits => Ok(false),
    }
}

/// `{`, with its offset.
pub(crate) fn at_open_act<'a>(
    draft: &mut Draft<'a>,
    next: &mut Awaits<'a>,
    awaits: Awaits<'a>,
    at: u32,
) -> Result<bool, NoMemory>
    ensures { IfOk result (λ may. then_some may (stand next.new draft.new)
        ≡ option_map (λ s. stand ExprWanted (opened (frame.Braces at) s))
        (prefix_place awaits.entry draft.old)) }
{
    if !prefix_place(draft, awaits)? {
        return Ok(false);
    }
    into(draft, next, Frame::Braces { at }, Awaits::ExprWanted)
}
