//! The names of definitions. A later definition of a name hides an earlier one.

ghost use Rattle.std.specs.Prelude.{◌≡◌, ◌∷◌, [], ℕ, List, length, OnOk};
ghost use Rattle.cqp_expand.specs.Members.{def_of};
ghost use Rattle.cqp_expand.specs.Outlines.{IsNaming};

use crate::NoMemory;
use indexmap::IndexMap;
use std::alloc::Global;

/// The number of the last definition of each name.
#[derive(Drop)]
pub(crate) struct DefNames<'a> {
    numbers: IndexMap<&'a [u8], usize>,
}

impl<'a> DefNames<'a> {
    /// No names. It takes no memory.
    pub(crate) fn new(alloc: Global) -> DefNames<'a>
        ensures { IsNaming result [] }
    {
        DefNames {
            numbers: IndexMap::new(alloc),
        }
    }

    /// The number of the last definition of the name.
    pub(crate) fn find(&self, name: &[u8]) -> Option<usize>
        ensures { (names : List (List ℕ)) → IsNaming self.now names
            → result ≡ def_of names name.now }
    {
        self.numbers.get(name).copied()
    }

    /// Puts the definition with the number last.
    pub(crate) fn add(&mut self, name: &'a [u8], number: usize) -> Result<(), NoMemory>
        ensures { (names : List (List ℕ)) → IsNaming self.old names → number ≡ length names
            → OnOk result (IsNaming self.new (name.now ∷ names)) }
    {
        match self.numbers.insert(name, number) {
            Ok(_) => Ok(()),
            Err(e) => Err(NoMemory::from(e)),
        }
    }
}
