//! Where subtrees end.

ghost use Rattle.std.specs.Prelude.{◌≡◌, ◌+◌, ◌<◌, ◌≤◌, length, map, IfOk};
ghost use Rattle.std.specs.List.{range_with_len};
ghost use Rattle.cqp_uses.specs.Users.{EndsFrom};
ghost use Rattle.cqp_syntax.specs.Ends.{end_at, last_part_of};

use cqp_syntax::{NoMemory, Node, Proc};
use std::alloc::Global;

/// For each node the number behind its subtree.
pub(crate) fn ends_of(alloc: Global, proc: &Proc) -> Result<Vec<u32>, NoMemory>
    ensures { IfOk result (λ ends. EndsFrom proc.now ends.items 0) }
{
    let count = proc.len();
    let mut ends = vec![in alloc; 0u32; count as usize]?;
    for k in 0..count {
        let n = count - 1 - k;
        let end = end_of(proc, n, ends.as_slice());
        ends[n as usize] = end;
    }
    Ok(ends)
}

/// The number behind the subtree of node n, where those behind it are known.
fn end_of(proc: &Proc, n: u32, ends: &[u32]) -> u32
    requires within { n < length proc.now.nodes }
    requires few { length proc.now.nodes < 65537 }
    requires later { EndsFrom proc.now ends.now (n + 1) }
    ensures end { result ≡ end_at proc.now n }
    ensures fits { result ≤ length proc.now.nodes }
{
    match last_part(proc.node(n)) {
        Some(part) => ends[part as usize],
        None => n + 1,
    }
}

/// The last part of a node, if it has any.
fn last_part(node: &Node) -> Option<u32>
    ensures { result ≡ last_part_of node.now }
{
    match node {
        Node::Par { left: _, right } | Node::Add { left: _, right } => Some(*right),
        Node::New { name: _, body }
        | Node::Qbit { name: _, body }
        | Node::Act { expr: _, body }
        | Node::In { body, .. }
        | Node::Out { body, .. } => Some(*body),
        Node::If { no, .. } => Some(*no),
        Node::Sig { of } => Some(*of),
        Node::Apply { qubits: _, op } => Some(*op),
        _ => None,
    }
}
