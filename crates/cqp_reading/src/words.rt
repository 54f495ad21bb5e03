//! What a reserved word does, by what is awaited. `false` where it is refused.

ghost use Rattle.std.specs.Prelude.{◌≡◌, ◌<◌, ◌^◌, [], IfOk};
ghost use Rattle.std.specs.Option.{option_map};
ghost use Rattle.std.specs.Bool.{then_some};
ghost use Rattle.cqp_reading.specs.declared.awaits.Awaits.TheVariants.{MeasuredWanted};
ghost use Rattle.cqp_reading.specs.declared.awaits.Awaits.TheVariants.{OpOpen, SigOpen};
ghost use Rattle.cqp_reading.specs.DraftLists.{weight, stand};
ghost use Rattle.cqp_reading.specs.Closing.{atom_place, item_place};
ghost use Rattle.cqp_reading.specs.Closing.{type_place};
ghost use Rattle.cqp_reading.specs.Tokens.{word_place};
ghost use Rattle.cqp_reading.specs.Tokens.{gate_read, at_reserved, branch_word, type_word};
ghost use Rattle.cqp_reading.specs.Tokens.{expr_word};

use crate::NoMemory;
use crate::awaits::Awaits;
use crate::branches::branch_word;
use crate::draft::Draft;
use crate::standing::{atom, atom_place, go_on, item_place};
use crate::types::{type_place, word_type};
use cqp_grammar::{ReservedWord, gate_of_word};
use cqp_program::{Kind, Occs};
use cqp_syntax::{Op, Ty};

/// A reserved word.
pub(crate) fn at_reserved<'a>(
    draft: &mut Draft<'a>,
    next: &mut Awaits<'a>,
    awaits: Awaits<'a>,
    reserved: ReservedWord,
    at: u32,
) -> Result<bool, NoMemory>
    requires few { weight draft.old < 2 ^ 31 }
    ensures { IfOk result (λ may. then_some may (stand next.new draft.new)
        ≡ at_reserved awaits.entry draft.old reserved at) }
{
    match reserved {
        ReservedWord::Def | ReservedWord::New | ReservedWord::MakeQbit => {
            word_place(next, awaits, reserved)
        }
        ReservedWord::If | ReservedWord::Then | ReservedWord::Else => {
            branch_word(draft, next, awaits, reserved, at)
        }
        ReservedWord::IntType | ReservedWord::UnitType => type_word(draft, next, awaits, reserved),
        ReservedWord::QbitType | ReservedWord::OpType => type_word(draft, next, awaits, reserved),
        reserved => expr_word(draft, next, awaits, reserved, at),
    }
}

/// A word of a type.
fn type_word<'a>(
    draft: &mut Draft<'a>,
    next: &mut Awaits<'a>,
    awaits: Awaits<'a>,
    reserved: ReservedWord,
) -> Result<bool, NoMemory>
    requires few { weight draft.old < 2 ^ 31 }
    ensures { IfOk result (λ may. then_some may (stand next.new draft.new)
        ≡ type_word awaits.entry draft.old reserved) }
{
    match reserved {
        ReservedWord::IntType => word_type(draft, next, awaits, Ty::Int),
        ReservedWord::UnitType => word_type(draft, next, awaits, Ty::Unit),
        ReservedWord::QbitType => word_type(draft, next, awaits, Ty::Qbit),
        ReservedWord::OpType => at_op(draft, next, awaits),
        _ => Ok(false),
    }
}

/// A word of an expression.
fn expr_word<'a>(
    draft: &mut Draft<'a>,
    next: &mut Awaits<'a>,
    awaits: Awaits<'a>,
    reserved: ReservedWord,
    at: u32,
) -> Result<bool, NoMemory>
    requires few { weight draft.old < 2 ^ 31 }
    ensures { IfOk result (λ may. then_some may (stand next.new draft.new)
        ≡ expr_word awaits.entry draft.old reserved at) }
{
    match reserved {
        ReservedWord::Measure => at_measure(draft, next, awaits, at),
        ReservedWord::Sig => at_sig(draft, next, awaits, at),
        ReservedWord::UnitValue => atom(draft, next, awaits, Kind::Unit, at),
        gate => gate_read(draft, next, awaits, gate_of_word(gate), at),
    }
}

/// `def`, `new` and `qbit`.
fn word_place<'a>(
    next: &mut Awaits<'a>,
    awaits: Awaits<'a>,
    reserved: ReservedWord,
) -> Result<bool, NoMemory>
    ensures { IfOk result (λ may. then_some may next.new ≡ word_place awaits.entry reserved) }
{
    match (awaits, reserved) {
        (Awaits::Definitions, ReservedWord::Def) => go_on(next, Awaits::DefName),
        (Awaits::Opened { at }, ReservedWord::New) => go_on(next, Awaits::NewName { at }),
        (Awaits::Opened { at }, ReservedWord::MakeQbit) => go_on(next, Awaits::QbitName { at }),
        _ => Ok(false),
    }
}

/// `measure`, with its offset.
fn at_measure<'a>(
    draft: &mut Draft<'a>,
    next: &mut Awaits<'a>,
    awaits: Awaits<'a>,
    at: u32,
) -> Result<bool, NoMemory>
    requires few { weight draft.old < 2 ^ 31 }
    ensures { IfOk result (λ may. then_some may (stand next.new draft.new)
        ≡ option_map (stand (MeasuredWanted at [])) (item_place awaits.entry draft.old)) }
{
    if !item_place(draft, awaits)? {
        return Ok(false);
    }
    let qubits = Occs::new(draft.alloc());
    go_on(next, Awaits::MeasuredWanted { at, qubits })
}

/// `sig`, with its offset.
fn at_sig<'a>(
    draft: &mut Draft<'a>,
    next: &mut Awaits<'a>,
    awaits: Awaits<'a>,
    at: u32,
) -> Result<bool, NoMemory>
    requires few { weight draft.old < 2 ^ 31 }
    ensures { IfOk result (λ may. then_some may (stand next.new draft.new)
        ≡ option_map (stand (SigOpen at)) (atom_place awaits.entry draft.old)) }
{
    if !atom_place(draft, awaits)? {
        return Ok(false);
    }
    go_on(next, Awaits::SigOpen { at })
}

/// `Op`.
fn at_op<'a>(
    draft: &mut Draft<'a>,
    next: &mut Awaits<'a>,
    awaits: Awaits<'a>,
) -> Result<bool, NoMemory>
    requires few { weight draft.old < 2 ^ 31 }
    ensures { IfOk result (λ may. then_some may (stand next.new draft.new)
        ≡ option_map (stand OpOpen) (type_place awaits.entry draft.old)) }
{
    if !type_place(draft, awaits)? {
        return Ok(false);
    }
    go_on(next, Awaits::OpOpen)
}

/// Reads a gate, where an atom may begin.
fn gate_read<'a>(
    draft: &mut Draft<'a>,
    next: &mut Awaits<'a>,
    awaits: Awaits<'a>,
    gate: Option<Op>,
    at: u32,
) -> Result<bool, NoMemory>
    requires few { weight draft.old < 2 ^ 31 }
    ensures { IfOk result (λ may. then_some may (stand next.new draft.new)
        ≡ gate_read gate at (atom_place awaits.entry draft.old)) }
{
    match gate {
        Some(op) => atom(draft, next, awaits, Kind::Gate { op }, at),
        None => Ok(false),
    }
}
