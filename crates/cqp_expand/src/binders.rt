//! Binders: their types get numbers, and their names enter the scope.

ghost use Rattle.std.specs.Prelude.{◌≡◌, ◌≤◌, ◌∷◌, [], List, length, map, drop, IfOk, OnOk};
ghost use Rattle.std.specs.Prelude.{if◌then◌else◌};
ghost use Rattle.std.specs.List.{range_with_len, list_any};
ghost use Rattle.cqp_syntax.specs.TypeTrees.{TypeTree, qbit_type};
ghost use Rattle.cqp_grammar.specs.Trees.{Parameter};
ghost use Rattle.cqp_program.specs.Listing.{param, ty_tree};
ghost use Rattle.cqp_expand.specs.Binds.{has_text};
ghost use Rattle.cqp_expand.specs.Faults.{repeats};
ghost use Rattle.cqp_expand.specs.Locals.{after, IsLocal, Enters};

use crate::NoMemory;
use crate::fault::FaultKind;
use crate::locals::Locals;
use cqp_program::{Param, TyTree};
use cqp_syntax::Names;

impl<'a> Locals<'a> {
    /// The number of a binder, which enters its scope.
    pub(crate) fn enter(&mut self, text: &'a [u8], ty: &TyTree) -> Result<u32, NoMemory>
        requires tree { (t : TypeTree) × (ty.now ≡ ty_tree t) }
        requires local { IsLocal self.old }
        ensures number { IfOk result (λ n. n ≡ length self.old.ty_of) }
        ensures enters { (p : Parameter) → p.name ≡ text.now → ty.now ≡ ty_tree p.ty
            → OnOk result (Enters self.old self.new (p ∷ []) []) }
    {
        let ty = self.types.number_of(ty)?;
        let number = self.bind(text, ty)?;
        Ok(number)
    }

    /// The number of a qubit's binder, which enters its scope.
    pub(crate) fn enter_qubit(&mut self, text: &'a [u8]) -> Result<u32, NoMemory>
        requires { IsLocal self.old }
        ensures number { IfOk result (λ n. n ≡ length self.old.ty_of) }
        ensures enters { (p : Parameter) → p.name ≡ text.now → p.ty ≡ qbit_type
            → OnOk result (Enters self.old self.new (p ∷ []) []) }
    {
        let ty = self.types.qbit()?;
        let number = self.bind(text, ty)?;
        Ok(number)
    }

    /// The numbers of parameters, which enter their scope. A repeated name is a fault.
    pub(crate) fn params(&mut self, params: &'a [Param]) -> Result<Names, NoMemory>
        requires trees { (ps : List Parameter) × (params.now ≡ map param ps) }
        requires local { IsLocal self.old }
        ensures numbers { IfOk result (λ ns. ns
            ≡ range_with_len (length self.old.ty_of) (length params.now)) }
        ensures enters { (ps : List Parameter) → params.now ≡ map param ps
            → OnOk result (Enters self.old self.new ps (repeats [] ps)) }
    {
        let depth = self.scope.depth();
        let mut numbers = Names::with_capacity(self.alloc, params.len())?;
        for own in params {
            self.repeated(depth, own);
            numbers.push(self.enter(own.name.as_slice(), &own.ty)?)?;
        }
        Ok(numbers)
    }

    /// Notes the fault of a parameter that repeats one of its own list.
    fn repeated(&mut self, depth: usize, own: &Param)
        requires { depth ≤ length self.old.scope }
        ensures { self.new ≡ after self.old
            (if list_any (has_text own.now.name) (drop depth self.old.scope)
            then record { at = own.now.at; kind = FaultKind.Twice } ∷ [] else []) }
    {
        if self.scope.repeats(depth, own.name.as_slice()) {
            self.fault(FaultKind::Twice, own.at);
        }
    }
}
