//! The names of a body while it is scanned: what they are numbered, which stand around a place, and
//! the least fault so far.

ghost use Rattle.std.specs.Prelude.{◌≡◌, ◌∷◌, [], length, map, IfOk, OnOk};
ghost use Rattle.cqp_expand.specs.Scopes.{find};
ghost use Rattle.cqp_expand.specs.Expansion.{number_in, numbers_in};
ghost use Rattle.cqp_expand.specs.Faults.{unbound_at, names_faults};
ghost use Rattle.cqp_expand.specs.Locals.{scope_in, after, with_bound, told, IsLocal};

use crate::NoMemory;
use crate::fault::{FaultKind, ScopeFault, lesser};
use crate::scope::{Bound, Scope};
use crate::types::TypeTable;
use cqp_lists::List;
use cqp_program::Occ;
use cqp_syntax::Names;
use std::alloc::{AllocError, Global};

/// What is known at a place of a body.
#[derive(Drop)]
pub(crate) struct Locals<'a> {
    pub(crate) alloc: Global,
    /// The types of all bodies so far.
    pub(crate) types: TypeTable,
    /// The least fault of all bodies so far.
    pub(crate) least: Option<ScopeFault>,
    pub(crate) scope: Scope<'a>,
    /// The number of the type of each of the body's names so far.
    pub(crate) ty_of: List<u32>,
}

impl<'a> Locals<'a> {
    /// No names, no types and no fault. It takes no memory.
    pub(crate) fn new(alloc: Global) -> Locals<'a>
        ensures local { IsLocal result }
        ensures none { result.least ≡ None }
    {
        Locals {
            alloc,
            types: TypeTable::new(alloc),
            least: None,
            scope: Scope::new(alloc),
            ty_of: List::new(alloc),
        }
    }

    /// Notes a fault.
    pub(crate) fn fault(&mut self, kind: FaultKind, at: u32)
        ensures { self.new ≡ after self.old (record { at = at; kind = kind } ∷ []) }
    {
        self.least = Some(lesser(self.least, ScopeFault { at, kind }));
    }

    /// The number of a name. One under no binder is a fault, and has number 0.
    pub(crate) fn named(&mut self, text: &[u8], at: u32) -> u32
        ensures number { result ≡ number_in (scope_in self.old) text.now }
        ensures faults { self.new
            ≡ after self.old (unbound_at (find (scope_in self.old) text.now) at) }
    {
        match self.scope.find(text) {
            Some(bound) => bound.number,
            None => {
                self.fault(FaultKind::Unbound, at);
                0
            }
        }
    }

    /// The number of a name where it stands.
    pub(crate) fn name(&mut self, name: &Occ) -> u32
        ensures number { result ≡ number_in (scope_in self.old) name.now.name }
        ensures faults { self.new
            ≡ after self.old (unbound_at (find (scope_in self.old) name.now.name) name.now.at) }
    {
        self.named(name.name.as_slice(), name.at)
    }

    /// The numbers of names.
    pub(crate) fn named_all(&mut self, names: &[Occ]) -> Result<Names, NoMemory>
        ensures numbers { IfOk result (λ ns. ns
            ≡ numbers_in (scope_in self.old) (map told names.now)) }
        ensures faults { OnOk result (self.new
            ≡ after self.old (names_faults (scope_in self.old) (map told names.now))) }
    {
        let mut numbers = Names::with_capacity(self.alloc, names.len())?;
        for name in names {
            numbers.push(self.name(name))?;
        }
        Ok(numbers)
    }

    /// A binder's number, which enters its scope. Where a body has 2^32 names there is none.
    pub(crate) fn bind(&mut self, text: &'a [u8], ty: u32) -> Result<u32, NoMemory>
        ensures number { IfOk result (λ n. n ≡ length self.old.ty_of) }
        ensures bound { OnOk result (self.new ≡ with_bound self.old
            (record { text = text.entry; number = length self.old.ty_of; ty = ty })) }
    {
        let count = self.ty_of.as_slice().len();
        if count > u32::MAX as usize {
            return Err(AllocError);
        }
        let number = count as u32;
        self.ty_of.push(ty)?;
        self.scope.enter(Bound { text, number, ty })?;
        Ok(number)
    }
}
