//! The nodes of a process's lists, from their fragments.

ghost use Rattle.std.specs.Prelude.{◌≡◌, ◌+◌, length, IfOk};
ghost use Rattle.cqp_program.specs.declared.fragment.Kind.TheVariants.{Out};
ghost use Rattle.cqp_postorder.specs.Subtrees.{part_count, node_with};

use crate::NoMemory;
use cqp_program::{Kind, Occ, TreeNode};
use cqp_syntax::Names;
use std::alloc::Global;

/// The node of this kind whose parts have these numbers.
pub(crate) fn node_of<'a>(
    alloc: Global,
    kind: Kind<'a>,
    parts: &[u32],
) -> Result<TreeNode<'a>, NoMemory>
    requires { length parts.now ≡ part_count kind }
    ensures { IfOk result (λ node. node ≡ node_with kind.entry parts.now) }
{
    Ok(match kind {
        Kind::Nil => TreeNode::Nil,
        Kind::Par => TreeNode::Par {
            left: parts[0],
            right: parts[1],
        },
        Kind::New { name, ty } => TreeNode::New {
            name,
            ty,
            body: parts[0],
        },
        Kind::Qbit { name } => TreeNode::Qbit {
            name,
            body: parts[0],
        },
        Kind::Act => TreeNode::Act {
            expr: parts[0],
            body: parts[1],
        },
        Kind::In { chan, params } => TreeNode::In {
            chan,
            params,
            body: parts[0],
        },
        Kind::Out { chan, args } => output(alloc, chan, args, parts)?,
        Kind::If => TreeNode::If {
            left: parts[0],
            right: parts[1],
            yes: parts[2],
            no: parts[3],
        },
        Kind::Num { v } => TreeNode::Num { v },
        Kind::Unit => TreeNode::Unit,
        Kind::Name { name } => TreeNode::Name { name },
        Kind::Gate { op } => TreeNode::Gate { op },
        Kind::Sig => TreeNode::Sig { of: parts[0] },
        Kind::Add => TreeNode::Add {
            left: parts[0],
            right: parts[1],
        },
        Kind::Apply { qubits } => TreeNode::Apply {
            qubits,
            op: parts[0],
        },
        Kind::Measure { qubits } => TreeNode::Measure { qubits },
        Kind::Call { name, args } => TreeNode::Call { name, args },
    })
}

/// The node of an output whose parts, so many arguments and the body, have these numbers.
fn output<'a>(
    alloc: Global,
    chan: Occ<'a>,
    args: usize,
    parts: &[u32],
) -> Result<TreeNode<'a>, NoMemory>
    requires { length parts.now ≡ args + 1 }
    ensures { IfOk result (λ node. node ≡ node_with (Out chan.entry args) parts.now) }
{
    Ok(TreeNode::Out {
        chan,
        args: Names::from_slice(alloc, &parts[..args])?,
        body: parts[args],
    })
}
