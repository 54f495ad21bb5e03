//! The outline of a body: its members, the types of its names, and how large it is.

ghost use Rattle.std.specs.Prelude.{◌≡◌, ◌≤◌, ◌++◌, [], List, map, min, sum_by, IfOk, OnOk};
ghost use Rattle.std.specs.List.{AllByRecursion};
ghost use Rattle.cqp_grammar.specs.Trees.{Parameter, ProcessTree, DefinitionTree};
ghost use Rattle.cqp_program.specs.Listing.{param, tree_lists};
ghost use Rattle.cqp_expand.specs.Scopes.{below_all};
ghost use Rattle.cqp_expand.specs.Faults.{repeats, process_faults};
ghost use Rattle.cqp_expand.specs.Sizes.{IsKnown, member_count, AreSized};
ghost use Rattle.cqp_expand.specs.Locals.{table, emptied, IsLocal, Notes};
ghost use Rattle.cqp_expand.specs.Outlines.{AreStarts, IsOutline, signatures, names_of, AreKnown};

use crate::NoMemory;
use crate::known::Known;
use crate::locals::Locals;
use crate::outline::{Member, Outline};
use crate::sizes::{count, starts_of};
use cqp_lists::List;
use cqp_program::{Param, Tree};
use std::alloc::Global;

impl<'a> Locals<'a> {
    /// The outline of a body below its parameters. The time grows with its nodes and names.
    pub(crate) fn outline(
        &mut self,
        known: &Known,
        params: &'a [Param],
        tree: &'a Tree,
    ) -> Result<Outline, NoMemory>
        requires params { (ps : List Parameter) × (params.now ≡ map param ps) }
        requires tree { (p : ProcessTree) × (tree.now ≡ tree_lists p) }
        requires local { IsLocal self.old }
        requires known { (ds : List DefinitionTree) × AreKnown (table self.old) known.now ds }
        ensures outline { (ps : List Parameter) (p : ProcessTree) (ds : List DefinitionTree)
            → params.now ≡ map param ps → tree.now ≡ tree_lists p
            → AreKnown (table self.old) known.now ds → IfOk result (λ d. IsOutline (table self.new)
            known.now.outlines.items (names_of ds) ps p d) }
        ensures notes { (ps : List Parameter) (p : ProcessTree) (ds : List DefinitionTree)
            → params.now ≡ map param ps → tree.now ≡ tree_lists p
            → AreKnown (table self.old) known.now ds → OnOk result (Notes self.old self.new
            (repeats [] ps ++ process_faults (signatures ds) (below_all [] 0 ps) p)) }
    {
        self.empty();
        self.params(params)?;
        let members = self.members(known, tree)?;
        let at = Vec::from_slice(self.alloc, tree.at.as_slice())?;
        let ty_of = self.take_types();
        let front = known.outlines.as_slice();
        let outline = outlined(self.alloc, front, members, at, ty_of, params.len())?;
        Ok(outline)
    }

    /// Forgets the names of an earlier body.
    fn empty(&mut self)
        ensures { self.new ≡ emptied self.old }
    {
        self.scope.leave(0);
        self.ty_of = List::new(self.alloc);
    }

    /// Hands out the types of the names.
    fn take_types(&mut self) -> Vec<u32>
        ensures types { result.items ≡ self.old.ty_of }
        ensures rest { self.new ≡ record self.old { ty_of = [] } }
    {
        let none = List::new(self.alloc);
        std::mem::replace(&mut self.ty_of, none).into_vec()
    }
}

/// The outline of a body with these members, behind these outlines.
fn outlined(
    alloc: Global,
    front: &[Outline],
    members: Vec<Member>,
    at: Vec<u32>,
    ty_of: Vec<u32>,
    arity: usize,
) -> Result<Outline, NoMemory>
    requires known { AllByRecursion (IsKnown front.now) members.items }
    requires sized { AreSized front.now }
    ensures members { IfOk result (λ d. d.members.items ≡ members.items) }
    ensures at { IfOk result (λ d. d.at.items ≡ at.items) }
    ensures types { IfOk result (λ d. d.ty_of.items ≡ ty_of.items) }
    ensures arity { IfOk result (λ d. d.arity ≡ arity) }
    ensures count { IfOk result (λ d. d.count
        ≡ min (sum_by (member_count front.now) members.items) 20001) }
    ensures starts { IfOk result (λ d. d.count ≤ 20000 → AreStarts front.now d) }
{
    let count = count(members.as_slice(), front);
    let starts = starts_of(alloc, members.as_slice(), front, count)?;
    Ok(Outline {
        members,
        at,
        starts,
        ty_of,
        arity,
        count,
    })
}
