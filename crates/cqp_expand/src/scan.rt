//! The scan of a program: each definition once, in order, and the main process last. It resolves
//! names and finds the least fault.

ghost use Rattle.std.specs.Prelude.{◌≡◌, ◌∷◌, [], List, IfOk, OnOk};
ghost use Rattle.std.specs.Prelude.{if◌then◌else◌, bytes_eq};
ghost use Rattle.std.specs.List.{list_any};
ghost use Rattle.cqp_grammar.specs.Trees.{DefinitionTree, ProcessTree, ProgramTree};
ghost use Rattle.cqp_program.specs.Listing.{tree_lists};
ghost use Rattle.cqp_program.specs.Programs.{def_lists, IsProgramListing};
ghost use Rattle.cqp_expand.specs.Kept.{least_of};
ghost use Rattle.cqp_expand.specs.Faults.{definition_faults, process_faults};
ghost use Rattle.cqp_expand.specs.Locals.{after};
ghost use Rattle.cqp_expand.specs.Outlines.{signatures, names_of, IsNaming};
ghost use Rattle.cqp_expand.specs.Scans.{IsScan, IsScanned, AreScanned};

use crate::NoMemory;
use crate::fault::{FaultKind, ScopeFault};
use crate::known::Known;
use crate::locals::Locals;
use crate::outline::Outline;
use crate::types::TypeTable;
use cqp_program::{Def, Program, Tree};
use std::alloc::Global;

/// What was scanned so far.
#[derive(Drop)]
struct Scan<'a> {
    known: Known<'a>,
    locals: Locals<'a>,
}

/// A program that is scanned: the outlines of its definitions in order, and that of its main
/// process last; the types of their names; and the least fault.
#[derive(Drop)]
pub(crate) struct Scanned {
    pub(crate) outlines: Vec<Outline>,
    pub(crate) types: TypeTable,
    pub(crate) least: Option<ScopeFault>,
}

impl Scanned {
    /// Scans a program. The time grows with its nodes and names.
    pub(crate) fn of(alloc: Global, program: &Program) -> Result<Scanned, NoMemory>
        ensures listed { IfOk result (λ _. (t : ProgramTree) × IsProgramListing program.now t) }
        ensures scan { (t : ProgramTree) → IsProgramListing program.now t
            → IfOk result (IsScanned t) }
    {
        let mut scan = Scan::new(alloc);
        for def in program.defs.as_slice() {
            scan.definition(def)?;
        }
        let scanned = scan.main(&program.main)?;
        Ok(scanned)
    }
}

impl<'a> Scan<'a> {
    /// Nothing. It takes no memory.
    fn new(alloc: Global) -> Scan<'a>
        ensures scan { IsScan result [] }
        ensures none { result.locals.least ≡ None }
    {
        Scan {
            known: Known::new(alloc),
            locals: Locals::new(alloc),
        }
    }

    /// Scans a definition. Later calls of its name mean this one.
    fn definition(&mut self, def: &'a Def) -> Result<(), NoMemory>
        requires def { (d : DefinitionTree) × (def.now ≡ def_lists d) }
        requires scan { (ds : List DefinitionTree) × IsScan self.old ds }
        ensures scan { (d : DefinitionTree) (ds : List DefinitionTree) → def.now ≡ def_lists d
            → IsScan self.old ds → OnOk result (IsScan self.new (d ∷ ds)) }
        ensures faults { (d : DefinitionTree) (ds : List DefinitionTree) → def.now ≡ def_lists d
            → IsScan self.old ds → OnOk result (self.new.locals.least
            ≡ least_of self.old.locals.least (definition_faults (signatures ds) d)) }
    {
        self.twice(def);
        let params = def.params.as_slice();
        let outline = self.locals.outline(&self.known, params, &def.body)?;
        self.known.add(def.name.as_slice(), outline)?;
        Ok(())
    }

    /// Notes a definition of a name that an earlier one has.
    fn twice(&mut self, def: &Def)
        ensures known { self.new.known ≡ self.old.known }
        ensures locals { (ds : List DefinitionTree)
            → IsNaming self.old.known.names (names_of ds)
            → self.new.locals ≡ after self.old.locals
            (if list_any (λ e. bytes_eq def.now.name e.text) (signatures ds)
            then record { at = def.now.at; kind = FaultKind.Twice } ∷ [] else []) }
    {
        if self.known.names.find(def.name.as_slice()).is_some() {
            self.locals.fault(FaultKind::Twice, def.at);
        }
    }

    /// Scans the main process.
    fn main(self, tree: &'a Tree) -> Result<Scanned, NoMemory>
        requires tree { (p : ProcessTree) × (tree.now ≡ tree_lists p) }
        requires scan { (ds : List DefinitionTree) × IsScan self ds }
        ensures { (p : ProcessTree) (ds : List DefinitionTree) → tree.now ≡ tree_lists p
            → IsScan self.entry ds → IfOk result (AreScanned ds p (least_of self.entry.locals.least
            (process_faults (signatures ds) [] p))) }
    {
        let Scan {
            mut known,
            mut locals,
        } = self;
        let outline = locals.outline(&known, &[], tree)?;
        known.outlines.push(outline)?;
        let Known { outlines, .. } = known;
        let Locals { types, least, .. } = locals;
        Ok(Scanned {
            outlines,
            types,
            least,
        })
    }
}
