//! How large a definition is once its calls are expanded, found from the sizes of those before it.

ghost use Rattle.std.specs.Prelude.{◌≡◌, ◌<◌, ◌≤◌, ◌+◌, ◌^◌, ℕ, min, sum_by, length, take, IfOk};
ghost use Rattle.std.specs.Prelude.{slice_index};
ghost use Rattle.std.specs.List.{AllByRecursion};
ghost use Rattle.cqp_syntax.specs.Listing.{breadth_of};
ghost use Rattle.cqp_expand.specs.Sizes.{IsKnown, member_count, IsSizedMember, member_length};
ghost use Rattle.cqp_expand.specs.Sizes.{AreSized};

use crate::NoMemory;
use crate::outline::{Member, Outline};
use cqp_syntax::Node;
use std::alloc::Global;

/// The most that a process may count as.
pub(crate) const MOST: u32 = 20_000;

/// What members count as: their nodes, with the names in their lists. More than 20,000 count as
/// 20,001.
pub(crate) fn count(members: &[Member], outlines: &[Outline]) -> u32
    requires { AllByRecursion (IsKnown outlines.now) members.now }
    ensures { result ≡ min (sum_by (member_count outlines.now) members.now) 20001 }
{
    let mut sum = 0;
    for member in members {
        sum = (sum + breadth(member, outlines)).min(MOST + 1);
    }
    sum
}

/// What a member counts as, at most 20,001.
fn breadth(member: &Member, outlines: &[Outline]) -> u32
    requires { IsKnown outlines.now member.now }
    ensures { result ≡ min (member_count outlines.now member.now) 20001 }
{
    match member {
        Member::Call { def, .. } => outlines[*def].count.min(MOST + 1),
        Member::Own { node } => listed(node).min(20_000) as u32 + 1,
    }
}

/// How many names stand in the list of a node's parameters or qubits.
fn listed(node: &Node) -> usize
    ensures { result + 1 ≡ breadth_of node.now }
{
    match node {
        Node::In { params, .. } => params.as_slice().len(),
        Node::Apply { qubits, .. } | Node::Measure { qubits } => qubits.as_slice().len(),
        _ => 0,
    }
}

/// Where the nodes of members begin, and where the last ends, unless they count as too much.
pub(crate) fn starts_of(
    alloc: Global,
    members: &[Member],
    outlines: &[Outline],
    count: u32,
) -> Result<Vec<u32>, NoMemory>
    requires known { AllByRecursion (IsKnown outlines.now) members.now }
    requires sized { AreSized outlines.now }
    requires count { count ≡ min (sum_by (member_count outlines.now) members.now) 20001 }
    ensures length { IfOk result (λ v. count ≤ 20000 → length v.items ≡ length members.now + 1) }
    ensures starts { IfOk result (λ v. count ≤ 20000 → (k : ℕ) → k ≤ length members.now
        → slice_index v.items k ≡ sum_by (member_length outlines.now) (take k members.now)) }
{
    if count > MOST {
        return Ok(Vec::new(alloc));
    }
    let begins = starts(alloc, members, outlines)?;
    Ok(begins)
}

/// How many nodes stand before each member, and behind the last, once calls are expanded.
fn starts(alloc: Global, members: &[Member], outlines: &[Outline]) -> Result<Vec<u32>, NoMemory>
    requires known { AllByRecursion (IsSizedMember outlines.now) members.now }
    requires fits { sum_by (member_length outlines.now) members.now < 2 ^ 32 }
    ensures length { IfOk result (λ v. length v.items ≡ length members.now + 1) }
    ensures starts { IfOk result (λ v. (k : ℕ) → k ≤ length members.now
        → slice_index v.items k ≡ sum_by (member_length outlines.now) (take k members.now)) }
{
    let mut starts = Vec::with_capacity(alloc, members.len())?;
    let mut next = 0;
    for member in members {
        starts.push(next)?;
        next += length(member, outlines);
    }
    starts.push(next)?;
    Ok(starts)
}

/// How many nodes a member stands for.
fn length(member: &Member, outlines: &[Outline]) -> u32
    requires { IsSizedMember outlines.now member.now }
    ensures { result ≡ member_length outlines.now member.now }
{
    match member {
        Member::Call { def, .. } => {
            let outline = &outlines[*def];
            outline.starts[outline.members.len()]
        }
        Member::Own { .. } => 1,
    }
}
