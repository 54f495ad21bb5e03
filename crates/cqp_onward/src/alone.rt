//! A part that goes on alone, in its place.

ghost use Rattle.std.specs.Prelude.{◌≡◌, ◌++◌, ◌∷◌, [], true, false, IfOk, OnErr};
ghost use Rattle.cqp_parts.specs.Parts.{node_at, body_of, bound_by, parts_after, parts_from};
ghost use Rattle.cqp_parts.specs.Parts.{prefixes_at, IsProcessAt};
ghost use Rattle.cqp_standing.specs.Stands.{Stands};
ghost use Rattle.cqp_uses.specs.Users.{IsUses};
ghost use Rattle.cqp_onward.specs.Forgetting.{PrefixEnds};

use crate::begin::begins_here;
use crate::effect::{Effect, body, effect_of};
use cqp_parts::{Bind, Part};
use cqp_syntax::{NoMemory, Node, Proc, Val};
use cqp_trace::Deed;
use cqp_uses::Uses;
use std::alloc::Global;

/// Where one part alone comes behind a deed of its own, the part goes on there, in its place, and
/// the answer is `true`. Else nothing changes, and it is `false`.
pub fn go_on_alone(
    proc: &Proc,
    uses: &Uses,
    alloc: Global,
    part: &mut Part,
    deed: &Deed,
) -> Result<bool, NoMemory>
    requires uses { IsUses proc.now uses.now }
    requires stands { Stands proc.now part.old }
    ensures went { IfOk result (λ went. went ≡ true
        → parts_after proc.now part.old deed.now ≡ part.new ∷ []) }
    ensures stays { IfOk result (λ went. went ≡ false → part.new ≡ part.old) }
    ensures err { OnErr result (part.new ≡ part.old) }
{
    match effect_of(proc, part, deed) {
        Effect::Reduces(val) => {
            part.vals.push(val)?;
            Ok(true)
        }
        Effect::Binds(val) => bound_alone(proc, uses, alloc, part, val),
        Effect::Ends(n) => Ok(moved_alone(proc, uses, alloc, part, n)),
    }
}

/// The same behind a binder, whose name gets the value.
fn bound_alone(
    proc: &Proc,
    uses: &Uses,
    alloc: Global,
    part: &mut Part,
    val: Val,
) -> Result<bool, NoMemory>
    requires uses { IsUses proc.now uses.now }
    requires stands { Stands proc.now part.old }
    ensures went { IfOk result (λ went. went ≡ true → parts_from proc.now (part.old.env
        ++ bound_by (node_at proc.now part.old.node) val)
        (body_of (node_at proc.now part.old.node)) ≡ part.new ∷ []) }
    ensures stays { IfOk result (λ went. went ≡ false → part.new ≡ part.old) }
    ensures err { OnErr result (part.new ≡ part.old) }
{
    let node = proc.node(part.node);
    let n = body(node);
    match node {
        Node::New { name, body: _ } | Node::Qbit { name, body: _ } if is_prefix(proc, n) => {
            part.env.push(Bind { name: *name, val })?;
            begins_here(proc, uses, alloc, part, n);
            Ok(true)
        }
        _ => Ok(false),
    }
}

/// The same at n, with the part's bindings.
fn moved_alone(proc: &Proc, uses: &Uses, alloc: Global, part: &mut Part, n: u32) -> bool
    requires uses { IsUses proc.now uses.now }
    requires process { IsProcessAt proc.now n }
    requires ends { PrefixEnds proc.now part.old.node part.old.env }
    ensures went { result ≡ true → parts_from proc.now part.old.env n ≡ part.new ∷ [] }
    ensures stays { result ≡ false → part.new ≡ part.old }
{
    let alone = is_prefix(proc, n);
    if alone {
        begins_here(proc, uses, alloc, part, n);
    }
    alone
}

/// Whether one prefix stands at n.
fn is_prefix(proc: &Proc, n: u32) -> bool
    requires { IsProcessAt proc.now n }
    ensures { result ≡ true → prefixes_at proc.now n ≡ n ∷ [] }
{
    !matches!(proc.node(n), Node::Nil | Node::Par { .. })
}
