//! Marked numbers, of which the least is asked for. They are kept as a tree of least marks in one
//! vector, so that only making room takes memory.

ghost use Rattle.std.specs.Prelude.{◌≡◌, ◌≢◌, ◌<◌, ◌≤◌, ◌+◌, ◌/◌, ◌==◌, ℕ, length, IfOk, IfSome};
ghost use Rattle.std.specs.Prelude.{Some, None, IsTrue, true, false, if◌then◌else◌};
ghost use Rattle.cqp_order.specs.Least.{IsLeast};
ghost use Rattle.cqp_order.specs.Marks.{node, lesser, is_marked, is_just, IsRight, Renews};

use crate::stand::NoMemory;
use std::alloc::Global;
use std::marker::Model;
use std::vec::Vec;

/// Marked numbers below a bound, the room: seen as the tree and the room.
#[derive(Drop)]
pub struct Marks {
    tree: Vec<Option<u32>>,
    room: usize,
}

impl Model for Marks {
    ghost use Rattle.std.specs.Prelude.{ℕ, List, Option};
    ghost use Rattle.std.specs.Vec.{vec_items};
    ghost use Rattle.cqp_order.specs.Marks.{IsTree};

    ghost Value = { List (Option ℕ) × ℕ };

    ghost view = { λ m. (vec_items m.tree, m.room) };

    ghost invariant = { λ m. IsTree (vec_items m.tree) m.room };
}

impl Marks {
    /// No number is marked.
    pub fn new(alloc: Global, room: u32) -> Result<Marks, NoMemory>
        requires { 0 < room }
        ensures room { IfOk result (λ m. m.1 ≡ room) }
        ensures none { IfOk result (λ m. (k : ℕ) → is_marked m k ≡ false) }
    {
        let room = room as usize;
        let tree = Vec::from_elem(alloc, None, room + room)?;
        Ok(Marks { tree, room })
    }

    /// The bound: numbers below it can be marked.
    pub fn room(&self) -> usize
        ensures { result ≡ self.now.1 }
    {
        self.room
    }

    /// The least number that is marked.
    pub fn least(&self) -> Option<u32>
        ensures { IsLeast (λ k. IsTrue (is_marked self.now k)) result }
    {
        self.tree[1]
    }

    /// Marks `after` in the place of `before`, which is marked.
    pub fn renew(&mut self, before: Option<u32>, after: Option<u32>)
        requires before { IfSome before (λ k. k < self.old.1) }
        requires marked { IfSome before (λ k. IsTrue (is_marked self.old k)) }
        requires after { IfSome after (λ k. k < self.old.1) }
        ensures room { self.new.1 ≡ self.old.1 }
        ensures marks { Renews (is_marked self.old) (is_marked self.new) before after }
    {
        if before == after {
            return;
        }
        self.set_if(before, false);
        self.set_if(after, true);
    }

    /// Sets the number, if there is one.
    fn set_if(&mut self, number: Option<u32>, mark: bool)
        requires { IfSome number (λ k. k < self.old.1) }
        ensures room { self.new.1 ≡ self.old.1 }
        ensures marks { (k : ℕ) → is_marked self.new k
            ≡ (if is_just number k then mark else is_marked self.old k) }
    {
        if let Some(number) = number {
            self.set(number, mark);
        }
    }

    /// Marks the number, or takes its mark away.
    fn set(&mut self, number: u32, mark: bool)
        requires { number < self.old.1 }
        ensures room { self.new.1 ≡ self.old.1 }
        ensures marks { (k : ℕ) → is_marked self.new k
            ≡ (if number == k then mark else is_marked self.old k) }
    {
        let leaf = self.room + number as usize;
        self.tree[leaf] = mark_of(number, mark);
        mend(&mut self.tree, self.room, leaf);
    }
}

/// The number, where it is marked.
fn mark_of(number: u32, mark: bool) -> Option<u32>
    ensures { result ≡ (if mark then Some number else None) }
{
    if mark { Some(number) } else { None }
}

/// The lesser of two marks, if there is one.
fn lesser(a: Option<u32>, b: Option<u32>) -> Option<u32>
    ensures { result ≡ lesser a b }
{
    match (a, b) {
        (Some(x), Some(y)) if x <= y => a,
        (Some(_), None) => a,
        _ => b,
    }
}

/// Where the nodes above node `i` alone may be wrong, mends them.
fn mend(tree: &mut [Option<u32>], room: usize, i: usize)
    requires size { length tree.old ≡ room + room }
    requires place { (0 < i) × (i < room + room) }
    requires right { (j : ℕ) → 0 < j → j < room → j ≢ i / 2 → IsRight tree.old j }
    ensures size { length tree.new ≡ length tree.old }
    ensures right { (j : ℕ) → 0 < j → j < room → IsRight tree.new j }
    ensures leaves { (j : ℕ) → room ≤ j → node tree.new j ≡ node tree.old j }
{
    if i == 1 {
        return;
    }
    let parent = i / 2;
    tree[parent] = lesser(tree[2 * parent], tree[2 * parent + 1]);
    mend(tree, room, parent);
}
