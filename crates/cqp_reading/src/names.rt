//! What a name or a number does, by what is awaited. `false` where it is refused.

ghost use Rattle.std.specs.Prelude.{◌≡◌, ◌<◌, ◌^◌, [], ◌∷◌, ◌++◌, IfOk};
ghost use Rattle.std.specs.Bool.{then_some};
ghost use Rattle.cqp_reading.specs.DraftLists.{weight, stand};
ghost use Rattle.cqp_reading.specs.Closing.{prefix_place};
ghost use Rattle.cqp_reading.specs.Tokens.{listed, bound, at_name, op_place, nil_read, at_number};

use crate::NoMemory;
use crate::awaits::Awaits;
use crate::closing::prefix_read;
use crate::draft::Draft;
use crate::frame::Frame;
use crate::standing::{atom, go_on, into, prefix_place};
use cqp_program::{Kind, Occ, Occs, Params};
use std::alloc::Global;

/// A name.
pub(crate) fn at_name<'a>(
    draft: &mut Draft<'a>,
    next: &mut Awaits<'a>,
    awaits: Awaits<'a>,
    name: Occ<'a>,
) -> Result<bool, NoMemory>
    requires few { weight draft.old < 2 ^ 31 }
    ensures { IfOk result (λ may. then_some may (stand next.new draft.new)
        ≡ at_name awaits.entry draft.old name.entry) }
{
    match awaits {
        Awaits::Definitions | Awaits::PrefixWanted => go_on(next, Awaits::Named { name }),
        Awaits::Opened { .. } => into(draft, next, Frame::Group, Awaits::Named { name }),
        Awaits::ItemWanted | Awaits::AtomWanted | Awaits::OutputFirst => {
            let Occ { name, at } = name;
            atom(draft, next, Awaits::AtomWanted, Kind::Name { name }, at)
        }
        awaits => bound(draft, next, awaits, name),
    }
}

/// A name that begins something.
fn bound<'a>(
    draft: &Draft<'a>,
    next: &mut Awaits<'a>,
    awaits: Awaits<'a>,
    name: Occ<'a>,
) -> Result<bool, NoMemory>
    ensures { IfOk result (λ may. then_some may next.new ≡ bound awaits.entry name.entry) }
{
    match awaits {
        Awaits::DefName => go_on(next, Awaits::DefOpen { name }),
        Awaits::ParamsFirst => {
            let params = Params::new(draft.alloc());
            go_on(next, Awaits::ParamColon { params, name })
        }
        Awaits::ParamWanted { params } => go_on(next, Awaits::ParamColon { params, name }),
        Awaits::NewName { at } => go_on(next, Awaits::NewColon { at, name }),
        Awaits::QbitName { at } => go_on(next, Awaits::QbitClose { at, name }),
        Awaits::ExprWanted => go_on(next, Awaits::ExprNamed { name }),
        awaits => listed(draft.alloc(), next, awaits, name),
    }
}

/// A name in a list of names.
fn listed<'a>(
    alloc: Global,
    next: &mut Awaits<'a>,
    awaits: Awaits<'a>,
    name: Occ<'a>,
) -> Result<bool, NoMemory>
    ensures { IfOk result (λ may. then_some may next.new ≡ listed awaits.entry name.entry) }
{
    let now = match awaits {
        Awaits::CallFirst { called } => {
            let args = one(alloc, name)?;
            Awaits::CallAfter { called, args }
        }
        Awaits::CallWanted { called, args } => {
            let args = more(args, name)?;
            Awaits::CallAfter { called, args }
        }
        Awaits::AppliedWanted { qubits } => {
            let qubits = more(qubits, name)?;
            Awaits::AppliedAfter { qubits }
        }
        Awaits::MeasuredWanted { at, qubits } | Awaits::MeasuredComma { at, qubits } => {
            let qubits = more(qubits, name)?;
            Awaits::MeasuredAfter { at, qubits }
        }
        _ => return Ok(false),
    };
    go_on(next, now)
}

/// The names with one more behind them.
fn more<'a>(names: Occs<'a>, name: Occ<'a>) -> Result<Occs<'a>, NoMemory>
    ensures { IfOk result (λ all. all ≡ names.entry ++ name.entry ∷ []) }
{
    let mut names = names;
    names.push(name)?;
    Ok(names)
}

/// A number.
pub(crate) fn at_number<'a>(
    draft: &mut Draft<'a>,
    next: &mut Awaits<'a>,
    awaits: Awaits<'a>,
    v: u32,
    at: u32,
) -> Result<bool, NoMemory>
    requires few { weight draft.old < 2 ^ 31 }
    ensures { IfOk result (λ may. then_some may (stand next.new draft.new)
        ≡ at_number awaits.entry draft.old v at) }
{
    match awaits {
        Awaits::OpNumber => op_place(next, v),
        Awaits::Definitions | Awaits::PrefixWanted | Awaits::Opened { .. } => {
            nil_read(draft, next, awaits, v, at)
        }
        awaits => atom(draft, next, awaits, Kind::Num { v }, at),
    }
}

/// What is awaited behind the number of places of an `Op`.
fn op_place(next: &mut Awaits, v: u32) -> Result<bool, NoMemory>
    ensures { IfOk result (λ may. then_some may next.new ≡ op_place v) }
{
    match v {
        1 => go_on(next, Awaits::OpClose { places: 1 }),
        2 => go_on(next, Awaits::OpClose { places: 2 }),
        3 => go_on(next, Awaits::OpClose { places: 3 }),
        _ => Ok(false),
    }
}

/// `0` as a process.
fn nil_read<'a>(
    draft: &mut Draft<'a>,
    next: &mut Awaits<'a>,
    awaits: Awaits<'a>,
    v: u32,
    at: u32,
) -> Result<bool, NoMemory>
    ensures { IfOk result (λ may. then_some may (stand next.new draft.new)
        ≡ nil_read v at (prefix_place awaits.entry draft.old)) }
{
    if v != 0 || !prefix_place(draft, awaits)? {
        return Ok(false);
    }
    draft.emit(Kind::Nil, at)?;
    prefix_read(draft, next)
}

/// The names with this one alone.
pub(crate) fn one<'a>(alloc: Global, name: Occ<'a>) -> Result<Occs<'a>, NoMemory>
    ensures { IfOk result (λ names. names ≡ name.entry ∷ []) }
{
    let mut names = Occs::with_capacity(alloc, 1)?;
    names.push(name)?;
    Ok(names)
}
