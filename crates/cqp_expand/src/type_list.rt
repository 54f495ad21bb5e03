//! Different types in a list, in which a type is found by its word. Contracts see the list.

ghost use Rattle.std.specs.Prelude.{◌≡◌, ◌++◌, ◌∷◌, [], ℕ, IfNone, IfOk, IfSome, IsTrue, OnOk, Some};
ghost use Rattle.std.specs.Prelude.{◌↔◌, length, slice_get};
ghost use Rattle.cqp_expand.specs.TypeWords.{type_word};

use crate::NoMemory;
use cqp_syntax::Ty;
use indexmap::IndexSet;
use std::alloc::Global;
use std::marker::Model;

/// How many types are compared one by one before the words are asked.
const FEW: usize = 8;

/// The types, and the word of each.
#[derive(Drop)]
pub(crate) struct TypeList {
    types: Vec<Ty>,
    words: IndexSet<Vec<u32>>,
}

impl Model for TypeList {
    ghost use Rattle.std.specs.Prelude.{List, map};
    ghost use Rattle.cqp_syntax.specs.declared.ty.Ty.{Ty};
    ghost use Rattle.cqp_expand.specs.TypeWords.{AreWords};

    ghost Value = { List Ty };

    ghost view = { λ s. s.types.items };

    ghost invariant = { λ s. AreWords s.types.items (map (λ w. w.items) s.words.keys) };
}

impl TypeList {
    /// No types. It takes no memory.
    pub(crate) fn new(alloc: Global) -> TypeList
        ensures { result ≡ [] }
    {
        TypeList {
            types: Vec::new(alloc),
            words: IndexSet::new(alloc),
        }
    }

    pub(crate) fn len(&self) -> usize
        ensures { result ≡ length self.now }
    {
        self.types.len()
    }

    pub(crate) fn into_vec(self) -> Vec<Ty>
        ensures { result.items ≡ self }
    {
        self.types
    }

    /// The index of a type, in time that grows with its parts.
    pub(crate) fn find(&self, alloc: Global, ty: &Ty) -> Result<Option<usize>, NoMemory>
        ensures found { IfOk result (λ found. IfSome found (λ n.
            slice_get self.now n ≡ Some ty.now)) }
        ensures missing { IfOk result (λ found. IfNone found
            ((n : ℕ) → slice_get self.now n ≡ Some ty.now → ⊥)) }
    {
        let front = &self.types[..self.types.len().min(FEW)];
        match index_of(front, ty) {
            Some(index) => Ok(Some(index)),
            None => self.find_word(alloc, ty),
        }
    }

    /// The same by its word.
    fn find_word(&self, alloc: Global, ty: &Ty) -> Result<Option<usize>, NoMemory>
        ensures found { IfOk result (λ found. IfSome found (λ n.
            slice_get self.now n ≡ Some ty.now)) }
        ensures missing { IfOk result (λ found. IfNone found
            ((n : ℕ) → slice_get self.now n ≡ Some ty.now → ⊥)) }
    {
        let word = word_of(alloc, ty)?;
        Ok(self.words.get_index_of(word.as_slice()))
    }

    /// Puts a new type last.
    pub(crate) fn push(&mut self, alloc: Global, ty: Ty) -> Result<(), NoMemory>
        requires new { (n : ℕ) → slice_get self.old n ≡ Some ty → ⊥ }
        ensures { OnOk result (self.new ≡ self.old ++ ty ∷ []) }
    {
        let word = word_of(alloc, &ty)?;
        self.types.reserve(1)?;
        self.words.insert(word)?;
        self.types.push_reserved(ty);
        Ok(())
    }
}

/// The numbers that tell a type from each other: its kind, and its places or the numbers of its
/// parts.
fn word_of(alloc: Global, ty: &Ty) -> Result<Vec<u32>, NoMemory>
    ensures { IfOk result (λ word. word.items ≡ type_word ty.now) }
{
    match ty {
        Ty::Int => Vec::from_slice(alloc, &[0]),
        Ty::Unit => Vec::from_slice(alloc, &[1]),
        Ty::Qbit => Vec::from_slice(alloc, &[2]),
        Ty::Op { places } => Vec::from_slice(alloc, &[3, *places]),
        Ty::Chan { of } => {
            let mut word = Vec::from_slice(alloc, &[4])?;
            word.extend_from_slice(of.as_slice())?;
            Ok(word)
        }
    }
}

/// The index of a type among others.
fn index_of(types: &[Ty], ty: &Ty) -> Option<usize>
    ensures found { IfSome result (λ n. slice_get types.now n ≡ Some ty.now) }
    ensures missing { IfNone result ((n : ℕ) → slice_get types.now n ≡ Some ty.now → ⊥) }
{
    let mut next = 0;
    while next < types.len() {
        if same(&types[next], ty) {
            return Some(next);
        }
        next += 1;
    }
    None
}

/// Whether two types with numbered parts are one.
fn same(left: &Ty, right: &Ty) -> bool
    ensures { IsTrue result ↔ (left.now ≡ right.now) }
{
    match (left, right) {
        (Ty::Int, Ty::Int) | (Ty::Unit, Ty::Unit) | (Ty::Qbit, Ty::Qbit) => true,
        (Ty::Op { places }, Ty::Op { places: other }) => places == other,
        (Ty::Chan { of }, Ty::Chan { of: other }) => of == other,
        _ => false,
    }
}
