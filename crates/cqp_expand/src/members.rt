//! The members of a body. Its nodes are read once, in their order; for each that is still to come a
//! stack keeps how many binders stand around it, so nothing recurses.

ghost use Rattle.std.specs.Prelude.{◌≡◌, ◌++◌, List, length, replicate, IfOk, OnOk};
ghost use Rattle.cqp_grammar.specs.Trees.{DefinitionTree, ProcessTree};
ghost use Rattle.cqp_program.specs.Listing.{tree_lists};
ghost use Rattle.cqp_expand.specs.Faults.{process_faults};
ghost use Rattle.cqp_expand.specs.Members.{local_types, members_in};
ghost use Rattle.cqp_expand.specs.Locals.{table, scope_in, left, IsLocal, Enters, Scans};
ghost use Rattle.cqp_expand.specs.Nodes.{HasTypes, bound_by, member_of, member_faults, part_count};
ghost use Rattle.cqp_expand.specs.Outlines.{signatures, names_of, AreKnown};

use crate::NoMemory;
use crate::known::Known;
use crate::locals::Locals;
use crate::outline::Member;
use cqp_program::{Tree, TreeNode};

impl<'a> Locals<'a> {
    /// Resolves the nodes of a body, each below its binders. The time grows with the nodes and the
    /// names in them.
    pub(crate) fn members(&mut self, known: &Known, tree: &'a Tree) -> Result<Vec<Member>, NoMemory>
        requires tree { (p : ProcessTree) × (tree.now ≡ tree_lists p) }
        requires local { IsLocal self.old }
        requires known { (ds : List DefinitionTree) × AreKnown (table self.old) known.now ds }
        ensures members { (p : ProcessTree) (ds : List DefinitionTree) → tree.now ≡ tree_lists p
            → AreKnown (table self.old) known.now ds → IfOk result (λ v. v.items
            ≡ members_in (names_of ds) (scope_in self.old) (length self.old.ty_of) 0 p) }
        ensures scans { (p : ProcessTree) (ds : List DefinitionTree) → tree.now ≡ tree_lists p
            → AreKnown (table self.old) known.now ds
            → OnOk result (Scans self.old self.new (local_types p)
            (process_faults (signatures ds) (scope_in self.old) p)) }
    {
        let nodes = tree.nodes.as_slice();
        let offsets = tree.at.as_slice();
        let mut members = Vec::with_capacity(self.alloc, nodes.len())?;
        let mut depths = vec![in self.alloc; self.scope.depth()]?;
        let mut at = 0;
        while let Some(depth) = depths.pop() {
            let node = &nodes[at];
            self.leave(depth);
            members.push(self.member(known, node, offsets[at])?)?;
            push_depths(&mut depths, node, self.scope.depth())?;
            at += 1;
        }
        Ok(members)
    }

    /// Leaves the scopes of all binders but the first so many.
    fn leave(&mut self, depth: usize)
        ensures { self.new ≡ left self.old depth }
    {
        self.scope.leave(depth);
    }

    /// A node as a member.
    fn member(&mut self, known: &Known, node: &'a TreeNode, at: u32) -> Result<Member, NoMemory>
        requires types { HasTypes node.now }
        requires local { IsLocal self.old }
        requires known { (ds : List DefinitionTree) × AreKnown (table self.old) known.now ds }
        ensures member { (ds : List DefinitionTree) → AreKnown (table self.old) known.now ds
            → IfOk result (λ x. x ≡ member_of (signatures ds) (scope_in self.old)
            (length self.old.ty_of) node.now) }
        ensures enters { (h : HasTypes node.now) (ds : List DefinitionTree)
            → AreKnown (table self.old) known.now ds
            → OnOk result (Enters self.old self.new (bound_by node.now h.ty h.params)
            (member_faults (signatures ds) (scope_in self.old) at node.now h.params)) }
    {
        if let TreeNode::Call { name, args } = node {
            let member = self.call(known, name.as_slice(), args.as_slice(), at)?;
            return Ok(member);
        }
        let node = self.node(node, at)?;
        Ok(Member::Own { node })
    }
}

/// Pushes the depth for each part of a node.
fn push_depths(depths: &mut Vec<usize>, node: &TreeNode, depth: usize) -> Result<(), NoMemory>
    ensures { OnOk result (depths.new.items
        ≡ depths.old.items ++ replicate (part_count node.now) depth) }
{
    for _ in 0..part_count(node) {
        depths.push(depth)?;
    }
    Ok(())
}

/// How many parts a node has.
fn part_count(node: &TreeNode) -> usize
    ensures { result ≡ part_count node.now }
{
    match node {
        TreeNode::If { .. } => 4,
        TreeNode::Par { .. } | TreeNode::Act { .. } | TreeNode::Add { .. } => 2,
        TreeNode::New { .. } | TreeNode::Qbit { .. } | TreeNode::In { .. } => 1,
        TreeNode::Sig { .. } | TreeNode::Apply { .. } => 1,
        TreeNode::Out { args, .. } => args.as_slice().len() + 1,
        _ => 0,
    }
}
