//! Marks on names, to find one that stands twice in a list.

ghost use Rattle.std.specs.Prelude.{◌≡◌, ℕ, ◌<◌, ◌≢◌, ◌==◌, length, map, drop, slice_index};
ghost use Rattle.std.specs.Prelude.{slice_set, replicate, IfOk};
ghost use Rattle.std.specs.List.{AllByRecursion};
ghost use Rattle.cqp_syntax.specs.Trees.{named};
ghost use Rattle.cqp_types.specs.Contexts.{is_twice};
ghost use Rattle.cqp_types.specs.Marks.{IsUnmarked, IsMarkedBy};

use cqp_syntax::NoMemory;
use std::alloc::Global;

/// For each name the number that marked it last.
#[derive(Drop)]
pub(crate) struct Marks {
    by: Vec<u32>,
}

impl Marks {
    /// Marks on so many names, each by the number `never`.
    pub(crate) fn new(alloc: Global, names: u32, never: u32) -> Result<Marks, NoMemory>
        ensures { IfOk result (λ m. m.by.items ≡ replicate names never) }
    {
        Ok(Marks {
            by: vec![in alloc; never; names as usize]?,
        })
    }

    /// Marks a name by a number. Was it marked by it before?
    pub(crate) fn mark(&mut self, number: u32, name: u32) -> bool
        requires { name < length self.old.by.items }
        ensures before { result ≡ (slice_index self.old.by.items name == number) }
        ensures marked { self.new.by.items ≡ slice_set self.old.by.items name number }
    {
        let before = self.by[name as usize] == number;
        self.by[name as usize] = number;
        before
    }

    /// Marks names by a number that has marked none. Does one of them stand twice?
    pub(crate) fn mark_all(&mut self, number: u32, names: &[u32]) -> bool
        requires within { AllByRecursion (λ x. x < length self.old.by.items) names.now }
        requires unmarked { IsUnmarked number self.old.by.items }
        ensures twice { result ≡ is_twice (map named names.now) }
        ensures marked { IsMarkedBy number self.old.by.items self.new.by.items }
    {
        let mut twice = false;
        let count = names.len();
        for k in 0..count {
            let i = count - 1 - k;
            let again = self.mark(number, names[i]);
            twice = again || twice;
        }
        twice
    }
}
