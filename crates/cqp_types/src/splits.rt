//! Qubits on both sides of a parallel composition.

ghost use Rattle.std.specs.Prelude.{◌≡◌, ℕ, ◌+◌, ◌<◌, ◌≤◌, List, [], ◌∷◌, length, ◌-◌, true, false};
ghost use Rattle.std.specs.Prelude.{◌==◌, if◌then◌else◌, Some, None, slice_index, replicate, IfOk};
ghost use Rattle.std.specs.Prelude.{OnOk, IsTrue};
ghost use Rattle.std.specs.List.{AllByRecursion};
ghost use Rattle.std.specs.List.Sorted.{IsNonDecreasing};
ghost use Rattle.cqp_syntax.specs.NodeNames.{uses_in, NamesWithin};
ghost use Rattle.cqp_syntax.specs.Trees.{named};
ghost use Rattle.cqp_syntax.specs.Listing.{Listing, IsListing, root};
ghost use Rattle.cqp_syntax.specs.Numbered.{IsNumbered};
ghost use Rattle.cqp_syntax.specs.Ends.{end_at};
ghost use Rattle.cqp_types.specs.Tables.{EndsFrom};
ghost use Rattle.cqp_types.specs.Rows.{FindsSplit};
ghost use Rattle.cqp_syntax.specs.Uses.{uses_at};
ghost use Rattle.cqp_types.specs.Searched.{IsNode, Parts, IsOn, AreOpen, IsSearched, parts_from};

use crate::forms::is_qubit;
use cqp_syntax::{NoMemory, Node, Proc};
use std::alloc::Global;

/// The least parallel composition that has a qubit on both sides.
pub(crate) fn least_split(
    alloc: Global,
    given: &Proc,
    ends: &[u32],
) -> Result<Option<u32>, NoMemory>
    requires { EndsFrom given.now ends.now 0 }
    ensures { IfOk result (λ s. FindsSplit given.now s) }
{
    let count = given.len();
    let mut stack = Vec::new(alloc);
    let mut search = Search::new(alloc, given.names(), count)?;
    for n in 0..count {
        close(&mut stack, ends, n);
        let node = given.node(n);
        open_at(&mut stack, n, node)?;
        search.read(given, stack.as_slice(), n, node);
    }
    Ok(search.found(count))
}

/// Takes the compositions off the stack that end at n.
fn close(stack: &mut Vec<u32>, ends: &[u32], n: u32)
    requires below { (k : ℕ) → k < length stack.old.items
        → slice_index stack.old.items k < length ends.now }
    ensures { (l : Listing) → IsNumbered l → n < length l.nodes → EndsFrom l ends.now 0
        → AreOpen l n n n stack.old.items → AreOpen l n (n + 1) (n + 1) stack.new.items }
{
    while ends_by(stack.as_slice(), ends, n) {
        let _ = stack.pop();
    }
}

/// Whether the last composition on the stack ends by n.
fn ends_by(stack: &[u32], ends: &[u32], n: u32) -> bool
    requires below { (k : ℕ) → k < length stack.now → slice_index stack.now k < length ends.now }
    ensures some { IsTrue result → 0 < length stack.now }
    ensures by { result ≡ true
        → slice_index ends.now (slice_index stack.now (length stack.now - 1)) ≤ n }
    ensures behind { result ≡ false → 0 < length stack.now
        → n < slice_index ends.now (slice_index stack.now (length stack.now - 1)) }
{
    match stack.last() {
        Some(branch) => ends[*branch as usize] <= n,
        None => false,
    }
}

/// Puts node n on the stack if it is a parallel composition.
fn open_at(stack: &mut Vec<u32>, n: u32, node: &Node) -> Result<(), NoMemory>
    ensures { OnOk result ((l : Listing) → IsNode l n node.now
        → AreOpen l n (n + 1) (n + 1) stack.old.items
        → AreOpen l (n + 1) (n + 1) (n + 1) stack.new.items) }
{
    if let Node::Par { .. } = node {
        stack.push(n)?;
    }
    Ok(())
}

/// What is known of the nodes so far: the number behind the last use of each name, 0 where there is
/// none, and the least parallel composition that fails, the count of nodes where there is none.
#[derive(Drop)]
struct Search {
    last: Vec<u32>,
    least: u32,
}

impl Search {
    /// Nothing is known.
    fn new(alloc: Global, names: u32, count: u32) -> Result<Search, NoMemory>
        ensures { IfOk result (λ s. (s.last.items ≡ replicate names 0) × (s.least ≡ count)) }
    {
        Ok(Search {
            last: vec![in alloc; 0u32; names as usize]?,
            least: count,
        })
    }

    /// Reads the names of node n.
    fn read(&mut self, given: &Proc, stack: &[u32], n: u32, node: &Node)
        requires few { length given.now.nodes < 65537 }
        requires node { IsNode given.now n node.now }
        requires within { NamesWithin given.now node.now }
        requires count { length self.old.last.items ≡ length given.now.ty_of }
        requires stack { AreOpen given.now (n + 1) (n + 1) (n + 1) stack.now }
        ensures count { length self.new.last.items ≡ length given.now.ty_of }
        ensures searched { IsSearched given.now n [] self.old.last.items self.old.least
            → IsSearched given.now (n + 1) [] self.new.last.items self.new.least }
    {
        match node {
            Node::Name { name } => self.use_name(given, stack, n, *name),
            Node::In { chan, .. } | Node::Out { chan, .. } => {
                self.use_name(given, stack, n, *chan);
            }
            Node::Apply { qubits, op: _ } | Node::Measure { qubits } => {
                self.use_all(given, stack, n, qubits.as_slice());
            }
            _ => {}
        }
    }

    /// Records uses by node n.
    fn use_all(&mut self, given: &Proc, stack: &[u32], n: u32, names: &[u32])
        requires within { n < length given.now.nodes }
        requires few { length given.now.nodes < 65537 }
        requires names { AllByRecursion (λ x. x < length given.now.ty_of) names.now }
        requires uses { AllByRecursion (λ x. uses_at given.now n (named x) ≡ true) names.now }
        requires count { length self.old.last.items ≡ length given.now.ty_of }
        requires stack { AreOpen given.now (n + 1) (n + 1) (n + 1) stack.now }
        ensures count { length self.new.last.items ≡ length given.now.ty_of }
        ensures searched { IsSearched given.now n [] self.old.last.items self.old.least
            → IsSearched given.now n names.now self.new.last.items self.new.least }
    {
        let count = names.len();
        for k in 0..count {
            self.use_name(given, stack, n, names[count - 1 - k]);
        }
    }

    /// Records a use by node n. With the use before it, it makes the composition fail that parts
    /// them.
    fn use_name(&mut self, given: &Proc, stack: &[u32], n: u32, name: u32)
        requires within { n < length given.now.nodes }
        requires few { length given.now.nodes < 65537 }
        requires name { name < length given.now.ty_of }
        requires uses { uses_at given.now n (named name) ≡ true }
        requires count { length self.old.last.items ≡ length given.now.ty_of }
        requires stack { AreOpen given.now (n + 1) (n + 1) (n + 1) stack.now }
        ensures count { length self.new.last.items ≡ length given.now.ty_of }
        ensures searched { (ys : List ℕ)
            → IsSearched given.now n ys self.old.last.items self.old.least
            → IsSearched given.now n (name ∷ ys) self.new.last.items self.new.least }
    {
        if is_qubit(given, name) {
            let split = parted(given, stack, self.last[name as usize], n);
            self.least = self.least.min(split);
            self.last[name as usize] = n + 1;
        }
    }

    /// What was found, when all nodes are read.
    fn found(&self, count: u32) -> Option<u32>
        ensures { result ≡ (if self.now.least == count then None else Some self.now.least) }
    {
        if self.least == count {
            None
        } else {
            Some(self.least)
        }
    }
}

/// The last composition on the stack below the number behind a use, if it parts that use from n;
/// the count of nodes if it does not.
fn parted(given: &Proc, stack: &[u32], behind: u32, n: u32) -> u32
    requires rises { IsNonDecreasing stack.now }
    requires below { (k : ℕ) → k < length stack.now
        → slice_index stack.now k < length given.now.nodes }
    ensures within { result ≤ length given.now.nodes }
    ensures parts { result < length given.now.nodes
        → Parts given.now result behind n × IsOn stack.now result }
    ensures last { (a : ℕ) → Parts given.now a behind n → IsOn stack.now a
        → ((b : ℕ) → IsOn stack.now b → b < behind → b ≤ a) → result ≡ a }
{
    let count = stack.partition_point(|branch| *branch < behind);
    if count == 0 {
        return given.len();
    }
    let branch = stack[count - 1];
    if parts(given.node(branch), behind, n) {
        branch
    } else {
        given.len()
    }
}

/// Whether the node is a composition whose right side begins at `behind` or later, and by n.
fn parts(node: &Node, behind: u32, n: u32) -> bool
    ensures { result ≡ parts_from node.now behind n }
{
    match node {
        Node::Par { left: _, right } => behind <= *right && *right <= n,
        _ => false,
    }
}
