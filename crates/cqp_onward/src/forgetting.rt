//! Bindings let go where a prefix ends: of names that were used there for the last time.

ghost use Rattle.std.specs.Prelude.{◌≡◌, ◌<◌, ◌≤◌, ◌==◌, [], ◌∷◌, filter, length, true, not};
ghost use Rattle.std.specs.List.{AllByRecursion};
ghost use Rattle.cqp_syntax.specs.Listing.{Listing};
ghost use Rattle.cqp_syntax.specs.NodeNames.{binds_in, uses_in};
ghost use Rattle.cqp_parts.specs.Parts.{kept_at, IsProcessAt};
ghost use Rattle.cqp_standing.specs.Stands.{has_rising_names};
ghost use Rattle.cqp_uses.specs.Users.{IsUses};
ghost use Rattle.cqp_onward.specs.Forgetting.{used_between, without, PrefixEnds};

use cqp_lists::List;
use cqp_parts::{Bind, Env};
use cqp_syntax::{Node, Proc};
use cqp_uses::Uses;

/// The bindings of names that are free at node n, in their memory, where the prefix at p ends. Only
/// names that p binds, or that its subtree uses outside that of n, are looked up.
pub(crate) fn keep_on(env: Env, proc: &Proc, uses: &Uses, p: u32, n: u32) -> Env
    requires uses { IsUses proc.now uses.now }
    requires there { IsProcessAt proc.now n }
    requires ends { PrefixEnds proc.now p env }
    ensures { result ≡ kept_at proc.now n env }
{
    let mut items = env.into_vec();
    forget_bound(&mut items, uses, proc.node(p), n);
    forget_between(&mut items, proc, uses, p, n, n);
    forget_between(&mut items, proc, uses, uses.end(n), uses.end(p), n);
    List::from_vec(items)
}

/// Lets go of the names that the nodes between use, unless they are free at node n.
fn forget_between(items: &mut Vec<Bind>, proc: &Proc, uses: &Uses, from: u32, to: u32, n: u32)
    requires uses { IsUses proc.now uses.now }
    requires there { IsProcessAt proc.now n }
    requires within { to ≤ length proc.now.nodes }
    requires rising { has_rising_names items.old.items ≡ true }
    ensures items { items.new.items
        ≡ without proc.now n (used_between proc.now from to) items.old.items }
    ensures rise { has_rising_names items.new.items ≡ true }
{
    for m in from..to {
        forget_used(items, uses, proc.node(m), n);
    }
}

/// Lets go of the names that a node uses, unless they are free at node n.
fn forget_used(items: &mut Vec<Bind>, uses: &Uses, node: &Node, n: u32)
    requires within { n < length uses.now.ends }
    requires names { AllByRecursion (λ x. x < length uses.now.names) (uses_in node.now) }
    requires rising { has_rising_names items.old.items ≡ true }
    ensures items { (l : Listing) → IsUses l uses.now → IsProcessAt l n
        → items.new.items ≡ without l n (uses_in node.now) items.old.items }
    ensures rise { has_rising_names items.new.items ≡ true }
{
    match node {
        Node::Name { name } => forget(items, uses, *name, n),
        Node::In { chan, .. } | Node::Out { chan, .. } => forget(items, uses, *chan, n),
        Node::Apply { qubits, op: _ } | Node::Measure { qubits } => {
            forget_all(items, uses, qubits.as_slice(), n)
        }
        _ => {}
    }
}

/// Lets go of the names that a node binds, unless they are free at node n.
fn forget_bound(items: &mut Vec<Bind>, uses: &Uses, node: &Node, n: u32)
    requires within { n < length uses.now.ends }
    requires names { AllByRecursion (λ x. x < length uses.now.names) (binds_in node.now) }
    requires rising { has_rising_names items.old.items ≡ true }
    ensures items { (l : Listing) → IsUses l uses.now → IsProcessAt l n
        → items.new.items ≡ without l n (binds_in node.now) items.old.items }
    ensures rise { has_rising_names items.new.items ≡ true }
{
    match node {
        Node::New { name, body: _ } | Node::Qbit { name, body: _ } => {
            forget(items, uses, *name, n)
        }
        Node::In { params, .. } => forget_all(items, uses, params.as_slice(), n),
        _ => {}
    }
}

/// Lets go of these names, unless they are free at node n.
fn forget_all(items: &mut Vec<Bind>, uses: &Uses, names: &[u32], n: u32)
    requires within { n < length uses.now.ends }
    requires names { AllByRecursion (λ x. x < length uses.now.names) names.now }
    requires rising { has_rising_names items.old.items ≡ true }
    ensures items { (l : Listing) → IsUses l uses.now → IsProcessAt l n
        → items.new.items ≡ without l n names.now items.old.items }
    ensures rise { has_rising_names items.new.items ≡ true }
{
    for name in names {
        forget(items, uses, *name, n);
    }
}

/// Lets go of a name, unless it is free at node n.
fn forget(items: &mut Vec<Bind>, uses: &Uses, name: u32, n: u32)
    requires within { n < length uses.now.ends }
    requires named { name < length uses.now.names }
    requires rising { has_rising_names items.old.items ≡ true }
    ensures items { (l : Listing) → IsUses l uses.now → IsProcessAt l n
        → items.new.items ≡ without l n (name ∷ []) items.old.items }
    ensures rise { has_rising_names items.new.items ≡ true }
{
    if !uses.is_free(name, n) {
        remove(items, name);
    }
}

/// Removes the binding of a name, if it is there.
fn remove(items: &mut Vec<Bind>, name: u32)
    requires { has_rising_names items.old.items ≡ true }
    ensures items { items.new.items ≡ filter (λ b. not (name == b.name)) items.old.items }
    ensures rise { has_rising_names items.new.items ≡ true }
{
    let at = items.as_slice().partition_point(|bind| bind.name < name);
    if at < items.len() && items[at].name == name {
        items.remove(at);
    }
}
