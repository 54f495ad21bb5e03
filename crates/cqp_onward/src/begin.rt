//! A part that goes on at a prefix.

ghost use Rattle.std.specs.Prelude.{◌≡◌, ◌<◌, [], length};
ghost use Rattle.std.specs.List.{AllByRecursion};
ghost use Rattle.cqp_parts.specs.Parts.{begins_at, kept_at, IsProcessAt};
ghost use Rattle.cqp_uses.specs.Users.{IsUses};
ghost use Rattle.cqp_onward.specs.Forgetting.{PrefixEnds};

use crate::forgetting::keep_on;
use crate::keeping::keep;
use cqp_lists::List;
use cqp_parts::{Env, Part, Vals};
use cqp_syntax::Proc;
use cqp_uses::Uses;
use std::alloc::Global;
use std::mem;

/// The part goes on at the prefix n, alone or as the first of several. It takes no memory, and
/// copies nothing.
pub(crate) fn begins(proc: &Proc, uses: &Uses, part: Part, n: u32, alone: bool) -> Part
    requires uses { IsUses proc.now uses.now }
    requires there { IsProcessAt proc.now n }
    requires names { AllByRecursion (λ b. b.name < length uses.now.names) part.env }
    requires ends { PrefixEnds proc.now part.node part.env }
    ensures { result ≡ begins_at proc.now part.env n }
{
    let Part { node, env, vals } = part;
    Part {
        node: n,
        env: kept(proc, uses, node, env, n, alone),
        vals: emptied(vals),
    }
}

/// The part goes on at the prefix n alone, in its place. It takes no memory, and copies nothing.
pub(crate) fn begins_here(proc: &Proc, uses: &Uses, alloc: Global, part: &mut Part, n: u32)
    requires uses { IsUses proc.now uses.now }
    requires there { IsProcessAt proc.now n }
    requires ends { PrefixEnds proc.now part.old.node part.old.env }
    ensures { part.new ≡ begins_at proc.now part.old.env n }
{
    let env = mem::replace(&mut part.env, Env::new(alloc));
    part.env = keep_on(env, proc, uses, part.node, n);
    let vals = mem::replace(&mut part.vals, Vals::new(alloc));
    part.vals = emptied(vals);
    part.node = n;
}

/// The bindings of names that are free at the prefix n, behind the prefix at p. The first of
/// several looks at each binding, since the others pass the nodes outside n once more.
fn kept(proc: &Proc, uses: &Uses, p: u32, env: Env, n: u32, alone: bool) -> Env
    requires uses { IsUses proc.now uses.now }
    requires there { IsProcessAt proc.now n }
    requires names { AllByRecursion (λ b. b.name < length uses.now.names) env }
    requires ends { PrefixEnds proc.now p env }
    ensures { result ≡ kept_at proc.now n env }
{
    if alone {
        keep_on(env, proc, uses, p, n)
    } else {
        keep(env, uses, n)
    }
}

/// The empty list, in the memory of these values.
fn emptied(vals: Vals) -> Vals
    ensures { result ≡ [] }
{
    let mut items = vals.into_vec();
    items.clear();
    List::from_vec(items)
}
