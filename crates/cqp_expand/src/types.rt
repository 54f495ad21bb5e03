//! Types that are told apart by their numbers: equal types have equal numbers.

ghost use Rattle.std.specs.Prelude.{◌≡◌, ◌<◌, ◌↔◌, ℕ, [], length, map, slice_index, IfOk, OnOk};
ghost use Rattle.std.specs.Prelude.{IfSome, IfNone, IsTrue, Some, slice_get};
ghost use Rattle.std.specs.List.{AllByRecursion};
ghost use Rattle.cqp_syntax.specs.TypeTrees.{TypeTree, qbit_type, type_at, tree_of, parts_of};
ghost use Rattle.cqp_program.specs.Listing.{ty_tree};
ghost use Rattle.cqp_expand.specs.Tables.{IsTable, Extends, renumbered};

use crate::NoMemory;
use crate::type_list::TypeList;
use cqp_program::TyTree;
use cqp_syntax::{Names, Ty};
use smallvec::{SmallVec, smallvec};
use std::alloc::{AllocError, Global};

/// The types so far, a type's parts before it.
#[derive(Drop)]
pub(crate) struct TypeTable {
    alloc: Global,
    types: TypeList,
}

impl TypeTable {
    /// No types. It takes no memory.
    pub(crate) fn new(alloc: Global) -> TypeTable
        ensures empty { result.types ≡ [] }
        ensures table { IsTable result.types }
    {
        TypeTable {
            alloc,
            types: TypeList::new(alloc),
        }
    }

    pub(crate) fn into_types(self) -> Vec<Ty>
        ensures { result.items ≡ self.types }
    {
        self.types.into_vec()
    }

    /// The number of a type. Its parts get numbers from the last to the first.
    pub(crate) fn number_of(&mut self, ty: &TyTree) -> Result<u32, NoMemory>
        requires table { IsTable self.old.types }
        requires tree { (t : TypeTree) × (ty.now ≡ ty_tree t) }
        ensures table { OnOk result (IsTable self.new.types) }
        ensures extends { OnOk result (Extends self.old.types self.new.types) }
        ensures below { IfOk result (λ n. n < length self.new.types) }
        ensures is { (t : TypeTree) → ty.now ≡ ty_tree t
            → IfOk result (λ n. type_at self.new.types n ≡ t) }
    {
        let parts = ty.nodes.as_slice();
        let mut numbers: SmallVec<u32, 4> = smallvec![in self.alloc; 0; parts.len()]?;
        let mut left = parts.len();
        while left > 0 {
            left -= 1;
            let own = numbered(self.alloc, &parts[left], numbers.as_slice())?;
            numbers[left] = self.number(own)?;
        }
        Ok(numbers[0])
    }

    /// The number of `Qbit`.
    pub(crate) fn qbit(&mut self) -> Result<u32, NoMemory>
        requires { IsTable self.old.types }
        ensures table { OnOk result (IsTable self.new.types) }
        ensures extends { OnOk result (Extends self.old.types self.new.types) }
        ensures below { IfOk result (λ n. n < length self.new.types) }
        ensures is { IfOk result (λ n. type_at self.new.types n ≡ qbit_type) }
    {
        self.number(Ty::Qbit)
    }

    /// The number of a type with these parts, which stands last where it is new. A table that is
    /// full answers `NoMemory`.
    fn number(&mut self, ty: Ty) -> Result<u32, NoMemory>
        requires table { IsTable self.old.types }
        requires parts { AllByRecursion (λ k. k < length self.old.types) (parts_of ty) }
        ensures table { OnOk result (IsTable self.new.types) }
        ensures extends { OnOk result (Extends self.old.types self.new.types) }
        ensures below { IfOk result (λ n. n < length self.new.types) }
        ensures is { IfOk result (λ n. type_at self.new.types n
            ≡ tree_of (type_at self.old.types) ty) }
    {
        if let Some(index) = self.types.find(self.alloc, &ty)? {
            return Ok(index as u32);
        }
        let number = self.types.len();
        if number >= u32::MAX as usize {
            return Err(AllocError);
        }
        self.types.push(self.alloc, ty)?;
        Ok(number as u32)
    }
}

/// A type of a tree, with the numbers of its parts.
fn numbered(alloc: Global, ty: &Ty, numbers: &[u32]) -> Result<Ty, NoMemory>
    requires { AllByRecursion (λ k. k < length numbers.now) (parts_of ty.now) }
    ensures { IfOk result (λ t. t ≡ renumbered numbers.now ty.now) }
{
    match ty {
        Ty::Int => Ok(Ty::Int),
        Ty::Unit => Ok(Ty::Unit),
        Ty::Qbit => Ok(Ty::Qbit),
        Ty::Op { places } => Ok(Ty::Op { places: *places }),
        Ty::Chan { of } => {
            let of = chosen(alloc, of.as_slice(), numbers)?;
            Ok(Ty::Chan { of })
        }
    }
}

/// The numbers of these parts.
fn chosen(alloc: Global, parts: &[u32], numbers: &[u32]) -> Result<Names, NoMemory>
    requires { AllByRecursion (λ k. k < length numbers.now) parts.now }
    ensures { IfOk result (λ ns. ns ≡ map (λ k. slice_index numbers.now k) parts.now) }
{
    let mut chosen = Names::new(alloc);
    for part in parts {
        chosen.push(numbers[*part as usize])?;
    }
    Ok(chosen)
}
