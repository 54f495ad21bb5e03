//! How many nodes each fragment of a process is with all nodes below it, found from the first
//! fragment to the last.

ghost use Rattle.std.specs.Prelude.{◌≡◌, ◌<◌, ◌^◌, ◌-◌, length, slice_index, IfOk};
ghost use Rattle.cqp_postorder.specs.Subtrees.{Subtree, Subtrees, IsCounted, EndIn, part_count};
ghost use Rattle.cqp_postorder.specs.Subtrees.{fragments_of, fragment_sizes, sizes_of};

use crate::NoMemory;
use cqp_program::{Fragment, Kind};
use std::alloc::Global;

/// The size of each fragment, its own node counted. The time grows with their number.
pub(crate) fn subtree_sizes(alloc: Global, fragments: &[Fragment]) -> Result<Vec<u32>, NoMemory>
    requires one { (t : Subtree) × IsCounted t × (fragments.now ≡ fragments_of t) }
    requires few { length fragments.now < 2 ^ 31 }
    ensures { (t : Subtree) → IsCounted t → fragments.now ≡ fragments_of t
        → IfOk result (λ sizes. sizes.items ≡ fragment_sizes t) }
{
    let mut sizes = Vec::with_capacity(alloc, fragments.len())?;
    for fragment in fragments {
        let parts = parts_size(sizes.as_slice(), part_count(&fragment.kind));
        sizes.push_reserved(1 + parts);
    }
    Ok(sizes)
}

/// How many nodes the last so many subtrees have. The sizes end in those of their fragments.
fn parts_size(sizes: &[u32], count: usize) -> u32
    requires last { (ts : Subtrees) × EndIn sizes.now count ts }
    requires few { length sizes.now < 2 ^ 31 }
    ensures { (ts : Subtrees) → EndIn sizes.now count ts → result ≡ sizes_of ts }
{
    let mut total = 0;
    for _ in 0..count {
        total += size_before(sizes, total);
    }
    total
}

/// The size that stands right before the last so many.
pub(crate) fn size_before(sizes: &[u32], last: u32) -> u32
    requires { last < length sizes.now }
    ensures { result ≡ slice_index sizes.now (length sizes.now - 1 - last) }
{
    sizes[sizes.len() - 1 - last as usize]
}

/// How many parts a node of this kind has.
pub(crate) fn part_count(kind: &Kind) -> usize
    requires { part_count kind.now < 2 ^ 64 }
    ensures { result ≡ part_count kind.now }
{
    match kind {
        Kind::If => 4,
        Kind::Par | Kind::Act | Kind::Add => 2,
        Kind::New { .. } | Kind::Qbit { .. } | Kind::In { .. } => 1,
        Kind::Sig | Kind::Apply { .. } => 1,
        Kind::Out { args, .. } => *args + 1,
        _ => 0,
    }
}
