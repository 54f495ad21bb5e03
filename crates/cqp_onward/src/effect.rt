//! What a deed does to its part.

ghost use Rattle.std.specs.Prelude.{◌≡◌};
ghost use Rattle.cqp_syntax.specs.Listing.{IsProc};
ghost use Rattle.cqp_parts.specs.Parts.{body_of, branch_of, parts_after};
ghost use Rattle.cqp_standing.specs.Stands.{Stands};
ghost use Rattle.cqp_onward.specs.Effects.{parts_by_effect, HasNext};

use cqp_parts::Part;
use cqp_syntax::{Node, Proc, Val};
use cqp_trace::Deed;

/// What a deed does to its part.
#[derive(Clone, Copy, Debug)]
pub(crate) enum Effect {
    /// One redex more has its value.
    Reduces(Val),
    /// The prefix ends, and the name that it binds, if it binds one, gets the value.
    Binds(Val),
    /// The prefix ends, and the process with the number follows.
    Ends(u32),
}

/// What a deed does to a part.
pub(crate) fn effect_of(proc: &Proc, part: &Part, deed: &Deed) -> Effect
    requires process { IsProc proc.now }
    requires stands { Stands proc.now part.now }
    ensures parts { parts_after proc.now part.now deed.now
        ≡ parts_by_effect proc.now part.now result }
    ensures next { HasNext proc.now result }
{
    let node = proc.node(part.node);
    match deed {
        Deed::Add { v } => Effect::Reduces(Val::Num { v: *v }),
        Deed::Pick { op } => Effect::Reduces(Val::Gate { op: *op }),
        Deed::Gate { .. } => Effect::Reduces(Val::Unit),
        Deed::Measure { outcome, .. } => Effect::Reduces(Val::Num { v: *outcome }),
        Deed::Qbit { q } => Effect::Binds(Val::Qubit { q: *q }),
        Deed::New { c } => Effect::Binds(Val::Chan { c: *c }),
        Deed::If { yes } => Effect::Ends(branch(node, *yes)),
        Deed::Act | Deed::Com { .. } => Effect::Ends(body(node)),
    }
}

/// The number of the process that follows a node.
pub(crate) fn body(node: &Node) -> u32
    ensures { result ≡ body_of node.now }
{
    match node {
        Node::New { name: _, body }
        | Node::Qbit { name: _, body }
        | Node::Act { expr: _, body }
        | Node::In { body, .. }
        | Node::Out { body, .. } => *body,
        _ => 0,
    }
}

/// The number of the branch that is taken.
fn branch(node: &Node, answer: bool) -> u32
    ensures { result ≡ branch_of node.now answer }
{
    match node {
        Node::If { yes, no, .. } => { if answer { *yes } else { *no } }
        _ => 0,
    }
}
