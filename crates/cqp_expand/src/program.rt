//! From a program to its process.

ghost use Rattle.std.specs.Prelude.{◌≡◌, IfOk, IfErr};
ghost use Rattle.cqp_grammar.specs.Trees.{ProgramTree};
ghost use Rattle.cqp_program.specs.Programs.{IsProgramListing};
ghost use Rattle.cqp_expand.specs.Outcomes.{answer_of, IsExpanded, Ends};

use crate::end::ExpandEnd;
use crate::fault::{FaultKind, ScopeFault};
use crate::scan::Scanned;
use crate::sizes::MOST;
use crate::spread::spread;
use cqp_program::Program;
use cqp_syntax::{Proc, Types};
use std::alloc::Global;

/// The process for which a program stands. Of faults the one with the least offset is answered.
pub fn expand(alloc: Global, program: &Program) -> Result<Proc, ExpandEnd>
    ensures ok { (t : ProgramTree) → IsProgramListing program.now t → IfOk result (IsExpanded t) }
    ensures err { (t : ProgramTree) → IsProgramListing program.now t → IfErr result (Ends t) }
{
    let scanned = Scanned::of(alloc, program)?;
    if let Some(fault) = scanned.least {
        return Err(answer(fault));
    }
    let outlines = scanned.outlines.as_slice();
    let main = outlines.len() - 1;
    if outlines[main].count > MOST {
        return Err(ExpandEnd::Large);
    }
    let copy = spread(alloc, scanned.outlines)?;
    let types = Types::from_vec(scanned.types.into_types());
    Ok(Proc::make(copy.nodes, types, copy.ty_of, copy.at))
}

/// The answer for a fault.
fn answer(fault: ScopeFault) -> ExpandEnd
    ensures { result ≡ answer_of fault }
{
    let at = fault.at;
    match fault.kind {
        FaultKind::Unbound => ExpandEnd::Unbound { at },
        FaultKind::UnknownDef => ExpandEnd::UnknownDef { at },
        FaultKind::Arity => ExpandEnd::Arity { at },
        FaultKind::Twice => ExpandEnd::Twice { at },
        FaultKind::ParamType => ExpandEnd::ParamType { at },
    }
}
