//! Where subtrees end, and where names are used.

ghost use Rattle.std.specs.Prelude.{◌≡◌, ℕ, ◌+◌, ◌<◌, ◌≤◌, List, [], ◌∷◌, length, nat_lt};
ghost use Rattle.std.specs.Prelude.{slice_index, replicate, IfOk};
ghost use Rattle.std.specs.List.{AllByRecursion};
ghost use Rattle.cqp_syntax.specs.NodeNames.{uses_in};
ghost use Rattle.cqp_syntax.specs.Listing.{Listing, Unfolds};
ghost use Rattle.cqp_types.specs.Uses.{UsesFrom, IsRecorded};
ghost use Rattle.cqp_syntax.specs.Ends.{end_at, last_part_of};
ghost use Rattle.cqp_types.specs.Tables.{EndsFrom};

use cqp_syntax::{NoMemory, Node, Proc};
use std::alloc::Global;

/// For each node the number behind its subtree.
pub(crate) fn ends_of(alloc: Global, given: &Proc) -> Result<Vec<u32>, NoMemory>
    ensures { IfOk result (λ ends. EndsFrom given.now ends.items 0) }
{
    let count = given.len();
    let mut ends = vec![in alloc; 0u32; count as usize]?;
    for k in 0..count {
        let n = count - 1 - k;
        let end = end_of(given, n, ends.as_slice());
        ends[n as usize] = end;
    }
    Ok(ends)
}

/// The number behind the subtree of node n, where those behind it are known.
fn end_of(given: &Proc, n: u32, ends: &[u32]) -> u32
    requires within { n < length given.now.nodes }
    requires few { length given.now.nodes < 65537 }
    requires later { EndsFrom given.now ends.now (n + 1) }
    ensures end { result ≡ end_at given.now n }
    ensures fits { result ≤ length given.now.nodes }
{
    match last_part(given.node(n)) {
        Some(part) => ends[part as usize],
        None => n + 1,
    }
}

/// The last part of a node, if it has any.
fn last_part(node: &Node) -> Option<u32>
    ensures { result ≡ last_part_of node.now }
{
    match node {
        Node::Par { left: _, right } | Node::Add { left: _, right } => Some(*right),
        Node::New { name: _, body }
        | Node::Qbit { name: _, body }
        | Node::Act { expr: _, body }
        | Node::In { body, .. }
        | Node::Out { body, .. } => Some(*body),
        Node::If { no, .. } => Some(*no),
        Node::Sig { of } => Some(*of),
        Node::Apply { qubits: _, op } => Some(*op),
        _ => None,
    }
}

/// For each name its two least uses among the nodes so far, which come from the last to the first;
/// the count of nodes where there is none.
#[derive(Drop)]
pub(crate) struct Uses {
    first: Vec<u32>,
    second: Vec<u32>,
}

impl Uses {
    /// No use so far.
    pub(crate) fn new(alloc: Global, names: u32, count: u32) -> Result<Uses, NoMemory>
        ensures { IfOk result (λ u. (u.first.items ≡ replicate names count)
            × (u.second.items ≡ replicate names count)) }
    {
        Ok(Uses {
            first: vec![in alloc; count; names as usize]?,
            second: vec![in alloc; count; names as usize]?,
        })
    }

    /// Records the names of node n, where those of the nodes behind it are.
    pub(crate) fn record(&mut self, n: u32, node: &Node)
        requires within { AllByRecursion (λ x. x < length self.old.first.items)
            (uses_in node.now) }
        requires counts { length self.old.second.items ≡ length self.old.first.items }
        ensures first { length self.new.first.items ≡ length self.old.first.items }
        ensures second { length self.new.second.items ≡ length self.old.second.items }
        ensures uses { (l : Listing) → n < length l.nodes → Unfolds l n node.now
            → UsesFrom l (n + 1) self.old.first.items self.old.second.items
            → UsesFrom l n self.new.first.items self.new.second.items }
    {
        match node {
            Node::Name { name } => self.use_at(n, *name),
            Node::In { chan, .. } | Node::Out { chan, .. } => self.use_at(n, *chan),
            Node::Apply { qubits, op: _ } | Node::Measure { qubits } => {
                self.use_all(n, qubits.as_slice());
            }
            _ => {}
        }
    }

    /// Records uses by node n.
    fn use_all(&mut self, n: u32, names: &[u32])
        requires within { AllByRecursion (λ x. x < length self.old.first.items) names.now }
        requires counts { length self.old.second.items ≡ length self.old.first.items }
        ensures first { length self.new.first.items ≡ length self.old.first.items }
        ensures second { length self.new.second.items ≡ length self.old.second.items }
        ensures recorded { (l : Listing) → n < length l.nodes
            → IsRecorded l n [] self.old.first.items self.old.second.items
            → IsRecorded l n names.now self.new.first.items self.new.second.items }
    {
        let count = names.len();
        for k in 0..count {
            self.use_at(n, names[count - 1 - k]);
        }
    }

    /// Records a use by node n, unless it is there.
    fn use_at(&mut self, n: u32, name: u32)
        requires within { name < length self.old.first.items }
        requires counts { length self.old.second.items ≡ length self.old.first.items }
        ensures first { length self.new.first.items ≡ length self.old.first.items }
        ensures second { length self.new.second.items ≡ length self.old.second.items }
        ensures recorded { (l : Listing) (ys : List ℕ) → n < length l.nodes
            → IsRecorded l n ys self.old.first.items self.old.second.items
            → IsRecorded l n (name ∷ ys) self.new.first.items self.new.second.items }
    {
        let before = self.first[name as usize];
        if before != n {
            self.second[name as usize] = before;
            self.first[name as usize] = n;
        }
    }

    /// Whether two nodes before the end use the name.
    pub(crate) fn used_twice(&self, name: u32, end: u32) -> bool
        requires { name < length self.now.second.items }
        ensures { result ≡ nat_lt (slice_index self.now.second.items name) end }
    {
        self.second[name as usize] < end
    }
}
