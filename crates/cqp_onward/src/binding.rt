//! Where a part goes on whose names got further values.

ghost use Rattle.std.specs.Prelude.{◌≡◌, ◌<◌, ◌++◌, length, take, IfOk, IfErr, OnOk, OnErr};
ghost use Rattle.std.specs.List.{AllByRecursion};
ghost use Rattle.cqp_parts.specs.Parts.{parts_from, bound_to};
ghost use Rattle.cqp_uses.specs.Users.{IsUses};
ghost use Rattle.cqp_parts.specs.Parts.{IsProcessAt};
ghost use Rattle.cqp_onward.specs.Forgetting.{PrefixEnds};

use crate::moved::goes_to;
use crate::parts::{Parts, Refused};
use cqp_lists::List;
use cqp_parts::{Bind, Part, Vals};
use cqp_syntax::{NoMemory, Proc, Val};
use cqp_uses::Uses;
use std::alloc::Global;

/// The parts at n, where the names have these values besides.
pub(crate) fn all_bound_goes(
    proc: &Proc,
    uses: &Uses,
    alloc: Global,
    part: Part,
    names: &[u32],
    vals: &[Val],
    n: u32,
) -> Result<Parts, Refused>
    requires uses { IsUses proc.now uses.now }
    requires process { IsProcessAt proc.now n }
    requires env { AllByRecursion (λ b. b.name < length uses.now.names) part.env }
    requires names { AllByRecursion (λ x. x < length uses.now.names) names.now }
    requires ends { PrefixEnds proc.now part.node (part.env ++ bound_to names.now vals.now) }
    ensures ok { IfOk result (λ parts. parts
        ≡ parts_from proc.now (part.env ++ bound_to names.now vals.now) n) }
    ensures err { IfErr result (λ e. e.part ≡ part) }
{
    let Part {
        node,
        env,
        vals: results,
    } = part;
    let count = env.len();
    let mut items = env.into_vec();
    match bind_all(&mut items, names, vals) {
        Ok(()) => {
            let part = with_bindings(node, items, results);
            goes_back(proc, uses, alloc, part, count, n)
        }
        Err(_) => Err(Refused {
            part: with_bindings(node, items, results),
        }),
    }
}

/// The part with these bindings.
fn with_bindings(node: u32, items: Vec<Bind>, vals: Vals) -> Part
    ensures { result ≡ record { node = node; env = items.items; vals = vals } }
{
    let env = List::from_vec(items);
    Part { node, env, vals }
}

/// The parts at n; where memory is refused the part has its first bindings alone again.
fn goes_back(
    proc: &Proc,
    uses: &Uses,
    alloc: Global,
    part: Part,
    count: usize,
    n: u32,
) -> Result<Parts, Refused>
    requires uses { IsUses proc.now uses.now }
    requires process { IsProcessAt proc.now n }
    requires names { AllByRecursion (λ b. b.name < length uses.now.names) part.env }
    requires ends { PrefixEnds proc.now part.node part.env }
    ensures ok { IfOk result (λ parts. parts ≡ parts_from proc.now part.env n) }
    ensures err { IfErr result (λ e. e.part ≡ record part { env = take count part.env }) }
{
    match goes_to(proc, uses, alloc, part, n) {
        Ok(parts) => Ok(parts),
        Err(Refused { part }) => Err(Refused {
            part: unbound(part, count),
        }),
    }
}

/// The part with its first bindings alone.
fn unbound(part: Part, count: usize) -> Part
    ensures { result ≡ record part { env = take count part.env } }
{
    let Part { node, env, vals } = part;
    let mut items = env.into_vec();
    items.truncate(count);
    with_bindings(node, items, vals)
}

/// Gives names their values, all or none.
fn bind_all(env: &mut Vec<Bind>, names: &[u32], vals: &[Val]) -> Result<(), NoMemory>
    ensures ok { OnOk result (env.new.items ≡ env.old.items ++ bound_to names.now vals.now) }
    ensures err { OnErr result (env.new.items ≡ env.old.items) }
{
    let count = env.as_slice().len();
    match push_all(env, names, vals) {
        Ok(()) => Ok(()),
        Err(e) => {
            env.truncate(count);
            Err(e)
        }
    }
}

/// Gives names their values. Where memory is refused some may have theirs.
fn push_all(env: &mut Vec<Bind>, names: &[u32], vals: &[Val]) -> Result<(), NoMemory>
    ensures ok { OnOk result (env.new.items ≡ env.old.items ++ bound_to names.now vals.now) }
    ensures err { OnErr result (take (length env.old.items) env.new.items ≡ env.old.items) }
{
    for i in 0..names.len().min(vals.len()) {
        env.push(Bind {
            name: names[i],
            val: vals[i],
        })?;
    }
    Ok(())
}
