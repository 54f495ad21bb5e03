//! The lists of a process while its fragments are placed, from the last to the first. The root has
//! number 0, and the numbers of a node's parts are known from their sizes.

ghost use Rattle.std.specs.Prelude.{◌≡◌, ◌<◌, ◌^◌, List, [], ◌∷◌, ◌++◌, length, replicate};
ghost use Rattle.std.specs.Prelude.{IfOk, OnOk};
ghost use Rattle.cqp_program.specs.declared.tree.TreeNode.TheVariants.{Unit};
ghost use Rattle.cqp_program.specs.declared.fragment.Fragment.{Fragment};
ghost use Rattle.cqp_postorder.specs.Subtrees.{Subtree, IsCounted, fragments_of, part_count};
ghost use Rattle.cqp_postorder.specs.Subtrees.{nodes_of, offsets_of};

use crate::NoMemory;
use crate::nodes::node_of;
use crate::numbers::find_parts;
use crate::sizes::{part_count, subtree_sizes};
use cqp_program::{Fragment, Tree, TreeNode, TreeNodes};
use cqp_syntax::Names;
use std::alloc::Global;
use std::mem;

/// The lists so far, and what is known of the fragments that are left.
#[derive(Drop)]
pub(crate) struct Placing<'a> {
    /// How many nodes each of them is, with all nodes below it.
    sizes: Vec<u32>,
    /// The numbers of the nodes that are parts of none of them, the next one last.
    pending: Vec<u32>,
    nodes: Vec<TreeNode<'a>>,
    at: Vec<u32>,
}

impl<'a> Placing<'a> {
    ghost use Rattle.cqp_postorder.specs.Placing.{IsPlacing, IsAtNode};

    /// Nothing is placed yet.
    pub(crate) fn new(alloc: Global, fragments: &[Fragment<'a>]) -> Result<Placing<'a>, NoMemory>
        requires one { (t : Subtree) × IsCounted t × (fragments.now ≡ fragments_of t) }
        requires few { length fragments.now < 2 ^ 31 }
        ensures { IfOk result (λ p. (t : Subtree) → IsCounted t → fragments.now ≡ fragments_of t
            → IsPlacing t fragments.now p) }
    {
        let sizes = subtree_sizes(alloc, fragments)?;
        let pending = vec![in alloc; 0]?;
        let nodes = units(alloc, fragments.len())?;
        let at = vec![in alloc; 0; fragments.len()]?;
        Ok(Placing {
            sizes,
            pending,
            nodes,
            at,
        })
    }

    /// Places the last of the fragments that are left.
    pub(crate) fn place(&mut self, alloc: Global, fragment: Fragment<'a>) -> Result<(), NoMemory>
        requires { (t : Subtree) × (left : List Fragment)
            × IsPlacing t (left ++ fragment ∷ []) self.old }
        ensures { (t : Subtree) (left : List Fragment)
            → IsPlacing t (left ++ fragment.entry ∷ []) self.old
            → OnOk result (IsPlacing t left self.new) }
    {
        let Fragment { kind, at } = fragment;
        let count = part_count(&kind);
        let n = self.take(count)?;
        let parts = &self.pending[self.pending.len() - count..];
        let node = node_of(alloc, kind, parts)?;
        // What stood there is `unit`, which owns nothing.
        mem::forget(mem::replace(&mut self.nodes[n as usize], node));
        self.at[n as usize] = at;
        Ok(())
    }

    /// Takes the next number. The numbers of the parts of its node, which are so many, come next.
    fn take(&mut self, count: usize) -> Result<u32, NoMemory>
        requires { (t : Subtree) × (left : List Fragment) × (x : Fragment)
            × IsPlacing t (left ++ x ∷ []) self.old × (count ≡ part_count x.kind) }
        ensures { (t : Subtree) (left : List Fragment) (x : Fragment)
            → IsPlacing t (left ++ x ∷ []) self.old → count ≡ part_count x.kind
            → IfOk result (λ n. IsAtNode t left x n self.new) }
    {
        let size = self.sizes.pop().unwrap();
        let n = self.pending.pop().unwrap();
        let end = n + size;
        find_parts(&mut self.pending, self.sizes.as_slice(), n + 1, end, count)?;
        Ok(n)
    }

    /// The lists, where each fragment is placed.
    pub(crate) fn into_tree(self) -> Tree<'a>
        ensures { (t : Subtree) → IsPlacing t [] self.entry
            → (result.nodes ≡ nodes_of 0 t) × (result.at ≡ offsets_of t) }
    {
        let Placing { nodes, at, .. } = self;
        Tree {
            nodes: TreeNodes::from_vec(nodes),
            at: Names::from_vec(at),
        }
    }
}

/// So many nodes, each of which is `unit` until its own is placed.
fn units<'a>(alloc: Global, count: usize) -> Result<Vec<TreeNode<'a>>, NoMemory>
    ensures { IfOk result (λ nodes. nodes.items ≡ replicate count Unit) }
{
    let mut nodes = Vec::with_capacity(alloc, count)?;
    for _ in 0..count {
        nodes.push_reserved(TreeNode::Unit);
    }
    Ok(nodes)
}
