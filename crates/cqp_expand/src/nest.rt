//! Binders that hide one another. The innermost of a name is found by its text, whatever the depth.

ghost use Rattle.std.specs.Prelude.{◌≡◌, ◌<◌, ◌≤◌, ◌∷◌, ◌++◌, [], length, take, drop, reverse};
ghost use Rattle.std.specs.Prelude.{◌+◌, find, IfOk, OnOk, OnErr, IsSome, bytes_eq};
ghost use Rattle.std.specs.List.{list_any};
ghost use Rattle.indexmap.specs.IndexMap.{get_by};
ghost use Rattle.cqp_expand.specs.declared.nest.NestedBinder.{NestedBinder};
ghost use Rattle.cqp_expand.specs.Binds.{has_text, bounds, depth_in, IsNested, Sets};

use crate::NoMemory;
use crate::scope::Bound;
use indexmap::IndexMap;
use std::alloc::Global;

/// A binder, and the depth of the one of its name that it hides: counted from 1, and 0 where it
/// hides none.
#[derive(Clone, Copy)]
pub(crate) struct NestedBinder<'a> {
    pub(crate) bound: Bound<'a>,
    pub(crate) outer: usize,
}

/// Binders, the innermost last. For each text, the depth of the innermost binder of that name,
/// counted from 1, and 0 where its binders are left.
#[derive(Drop)]
pub(crate) struct Nest<'a> {
    pub(crate) binders: Vec<NestedBinder<'a>>,
    pub(crate) depths: IndexMap<&'a [u8], usize>,
}

impl<'a> Nest<'a> {
    /// No binders. It takes no memory.
    pub(crate) fn new(alloc: Global) -> Nest<'a>
        ensures none { result.binders.items ≡ [] }
        ensures nested { IsNested result }
    {
        Nest {
            binders: Vec::new(alloc),
            depths: IndexMap::new(alloc),
        }
    }

    pub(crate) fn depth(&self) -> usize
        ensures { result ≡ length (bounds self.now.binders.items) }
    {
        self.binders.len()
    }

    /// The depth of the innermost binder of a name, counted from 1; 0 if there is none.
    fn depth_of(&self, text: &[u8]) -> usize
        requires { IsNested self.now }
        ensures { result ≡ depth_in text.now (reverse self.now.binders.items) }
    {
        match self.depths.get(text) {
            Some(depth) => *depth,
            None => 0,
        }
    }

    /// The innermost binder of a name.
    pub(crate) fn find(&self, text: &[u8]) -> Option<Bound<'a>>
        requires { IsNested self.now }
        ensures { result ≡ find (has_text text.now) (reverse (bounds self.now.binders.items)) }
    {
        let found = self.depth_of(text);
        if found == 0 {
            return None;
        }
        Some(self.binders[found - 1].bound)
    }

    /// Whether a binder behind the first so many has the name.
    pub(crate) fn repeats(&self, depth: usize, text: &[u8]) -> bool
        requires nested { IsNested self.now }
        requires within { depth ≤ length (bounds self.now.binders.items) }
        ensures { result
            ≡ list_any (has_text text.now) (drop depth (bounds self.now.binders.items)) }
    {
        depth < self.depth_of(text)
    }

    /// Puts a binder innermost.
    pub(crate) fn enter(&mut self, bound: Bound<'a>) -> Result<(), NoMemory>
        requires { IsNested self.old }
        ensures nested { IsNested self.new }
        ensures bound { OnOk result (bounds self.new.binders.items
            ≡ bounds self.old.binders.items ++ bound.entry ∷ []) }
    {
        self.binders.reserve(1)?;
        let outer = self.deepen(bound.text)?;
        self.binders.push_reserved(NestedBinder { bound, outer });
        Ok(())
    }

    /// Sets the depth of a text to that of the binder that comes next. Answers the depth of the
    /// innermost binder of that name so far.
    fn deepen(&mut self, text: &'a [u8]) -> Result<usize, NoMemory>
        requires { IsNested self.old }
        ensures sets { OnOk result (Sets text.now (length self.old.binders.items + 1)
            self.old.depths self.new.depths) }
        ensures depth { IfOk result (λ n. n ≡ depth_in text.now (reverse self.old.binders.items)) }
        ensures binders { self.new.binders ≡ self.old.binders }
        ensures err { OnErr result (IsNested self.new) }
    {
        let next = self.binders.len() + 1;
        match self.depths.insert(text, next) {
            Ok(Some(outer)) => Ok(outer),
            Ok(None) => Ok(0),
            Err(e) => Err(NoMemory::from(e)),
        }
    }

    /// Leaves all binders but the first so many.
    pub(crate) fn leave(&mut self, depth: usize)
        requires { IsNested self.old }
        ensures nested { IsNested self.new }
        ensures left { bounds self.new.binders.items ≡ take depth (bounds self.old.binders.items) }
    {
        while self.binders.len() > depth {
            self.leave_one();
        }
    }

    /// Leaves the innermost binder.
    fn leave_one(&mut self)
        requires nested { IsNested self.old }
        requires some { 0 < length self.old.binders.items }
        ensures nested { IsNested self.new }
        ensures left { (b : NestedBinder)
            × (self.old.binders.items ≡ self.new.binders.items ++ b ∷ []) }
    {
        if let Some(last) = self.binders.pop() {
            set(&mut self.depths, last.bound.text, last.outer);
        }
    }
}

/// Changes the depth of a text that is a key.
fn set<'a>(depths: &mut IndexMap<&'a [u8], usize>, text: &'a [u8], depth: usize)
    requires { IsSome (get_by (λ k. bytes_eq text.now k.now) depths.old) }
    ensures { Sets text.now depth depths.old depths.new }
{
    match depths.insert(text, depth) {
        Ok(_) | Err(_) => {}
    }
}
