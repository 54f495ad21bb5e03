//! Calls: which definition they mean, and whether their arguments are those that it wants.

ghost use Rattle.std.specs.Prelude.{◌≡◌, ◌<◌, ◌++◌, List, length, map, nat_eq, IfOk, OnOk};
ghost use Rattle.std.specs.List.{AllByRecursion};
ghost use Rattle.cqp_syntax.specs.TypeTrees.{TypeTree, type_at, same_type};
ghost use Rattle.cqp_grammar.specs.Trees.{DefinitionTree};
ghost use Rattle.cqp_expand.specs.Scopes.{find};
ghost use Rattle.cqp_expand.specs.Expansion.{numbers_in};
ghost use Rattle.cqp_expand.specs.Faults.{unless, type_faults, types_faults};
ghost use Rattle.cqp_expand.specs.Faults.{names_faults, signature_of, call_faults};
ghost use Rattle.cqp_expand.specs.Members.{def_of, call_member};
ghost use Rattle.cqp_expand.specs.Locals.{table, scope_in, after, told, IsLocal};
ghost use Rattle.cqp_expand.specs.Outlines.{HasParams, signatures, names_of, AreKnown};

use crate::NoMemory;
use crate::fault::FaultKind;
use crate::known::Known;
use crate::locals::Locals;
use crate::outline::{Member, Outline};
use cqp_program::Occ;
use cqp_syntax::Node;

impl<'a> Locals<'a> {
    /// A call at the offset. One of an unknown definition stands for `0`.
    pub(crate) fn call(
        &mut self,
        known: &Known,
        name: &[u8],
        args: &[Occ],
        at: u32,
    ) -> Result<Member, NoMemory>
        requires local { IsLocal self.old }
        requires known { (ds : List DefinitionTree) × AreKnown (table self.old) known.now ds }
        ensures member { (ds : List DefinitionTree) → AreKnown (table self.old) known.now ds
            → IfOk result (λ p. p ≡ call_member (numbers_in (scope_in self.old) (map told args.now))
            (def_of (names_of ds) name.now)) }
        ensures faults { (ds : List DefinitionTree) → AreKnown (table self.old) known.now ds
            → OnOk result (self.new ≡ after self.old
            (names_faults (scope_in self.old) (map told args.now)
            ++ call_faults (scope_in self.old) at (map told args.now)
            (signature_of (signatures ds) name.now))) }
    {
        let numbers = self.named_all(args)?;
        match known.names.find(name) {
            Some(def) => {
                self.compare(&known.outlines[def], args, at);
                Ok(Member::Call { def, args: numbers })
            }
            None => {
                self.fault(FaultKind::UnknownDef, at);
                Ok(Member::Own { node: Node::Nil })
            }
        }
    }

    /// Notes how the arguments differ from the parameters of the definition.
    fn compare(&mut self, outline: &Outline, args: &[Occ], at: u32)
        requires local { IsLocal self.old }
        requires params { (ts : List TypeTree) × HasParams (table self.old) outline.now ts }
        ensures { (ts : List TypeTree) → HasParams (table self.old) outline.now ts
            → self.new ≡ after self.old
            (unless (nat_eq (length args.now) (length ts)) FaultKind.Arity at
            ++ types_faults (scope_in self.old) (map told args.now) ts) }
    {
        self.counted(args.len(), outline.arity, at);
        self.arguments(&outline.ty_of[..outline.arity], args);
    }

    /// Notes a call with another number of arguments than parameters.
    fn counted(&mut self, given: usize, wanted: usize, at: u32)
        ensures { self.new ≡ after self.old (unless (nat_eq given wanted) FaultKind.Arity at) }
    {
        if given != wanted {
            self.fault(FaultKind::Arity, at);
        }
    }

    /// Notes arguments that have other types than the parameters in their places.
    fn arguments(&mut self, wanted: &[u32], args: &[Occ])
        requires local { IsLocal self.old }
        requires numbered { AllByRecursion (λ n. n < length (table self.old)) wanted.now }
        ensures { self.new ≡ after self.old (types_faults (scope_in self.old)
            (map told args.now) (map (type_at (table self.old)) wanted.now)) }
    {
        let count = args.len().min(wanted.len());
        for i in 0..count {
            self.argument(&args[i], wanted[i]);
        }
    }

    /// Notes an argument that has another type than the one that is wanted.
    fn argument(&mut self, arg: &Occ, wanted: u32)
        requires local { IsLocal self.old }
        requires numbered { wanted < length (table self.old) }
        ensures { self.new ≡ after self.old (type_faults (find (scope_in self.old) arg.now.name)
            (type_at (table self.old) wanted) arg.now.at) }
    {
        if let Some(bound) = self.scope.find(arg.name.as_slice()) {
            self.typed(bound.ty, wanted, arg.at);
        }
    }

    /// Notes two types that differ.
    fn typed(&mut self, ty: u32, wanted: u32, at: u32)
        requires local { IsLocal self.old }
        requires own { ty < length (table self.old) }
        requires other { wanted < length (table self.old) }
        ensures { self.new ≡ after self.old (unless
            (same_type (type_at (table self.old) ty) (type_at (table self.old) wanted))
            FaultKind.ParamType at) }
    {
        if ty != wanted {
            self.fault(FaultKind::ParamType, at);
        }
    }
}
