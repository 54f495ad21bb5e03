//! Where a part goes on.

ghost use Rattle.std.specs.Prelude.{◌≡◌, ◌<◌, length, IfOk, IfErr};
ghost use Rattle.std.specs.List.{AllByRecursion};
ghost use Rattle.cqp_parts.specs.Parts.{parts_from, IsProcessAt};
ghost use Rattle.cqp_uses.specs.Users.{IsUses};
ghost use Rattle.cqp_onward.specs.Forgetting.{PrefixEnds};
ghost use Rattle.cqp_onward.specs.Leads.{LeadsTo};

use crate::ahead::Ahead;
use crate::parts::{Parts, Refused};
use crate::sharing::begin_all;
use crate::spread::prefixes;
use cqp_parts::{Env, Part};
use cqp_syntax::{NoMemory, Node, Proc};
use cqp_uses::Uses;
use std::alloc::Global;

/// The parts side by side at n, with the part's bindings. Where one prefix stands there the part
/// itself goes on, which takes no memory.
pub(crate) fn goes_to(
    proc: &Proc,
    uses: &Uses,
    alloc: Global,
    part: Part,
    n: u32,
) -> Result<Parts, Refused>
    requires uses { IsUses proc.now uses.now }
    requires process { IsProcessAt proc.now n }
    requires names { AllByRecursion (λ b. b.name < length uses.now.names) part.env }
    requires ends { PrefixEnds proc.now part.node part.env }
    ensures ok { IfOk result (λ parts. parts ≡ parts_from proc.now part.env n) }
    ensures err { IfErr result (λ e. e.part ≡ part) }
{
    match ahead_at(proc, uses, alloc, &part.env, n) {
        Ok(ahead) => Ok(ahead.begin(proc, uses, part)),
        Err(_) => Err(Refused { part }),
    }
}

/// Where a part with these bindings goes on at n. One prefix alone takes no memory.
pub(crate) fn ahead_at(
    proc: &Proc,
    uses: &Uses,
    alloc: Global,
    env: &Env,
    n: u32,
) -> Result<Ahead, NoMemory>
    requires uses { IsUses proc.now uses.now }
    requires process { IsProcessAt proc.now n }
    requires names { AllByRecursion (λ b. b.name < length uses.now.names) env.now }
    ensures { IfOk result (λ ahead. LeadsTo proc.now env.now n ahead) }
{
    match proc.node(n) {
        Node::Nil => Ok(Ahead::of(None, Vec::new(alloc))),
        Node::Par { .. } => apart(proc, uses, alloc, env, n),
        _ => Ok(Ahead::of(Some(n), Vec::new(alloc))),
    }
}

/// The first prefix at n, and parts at the others.
fn apart(proc: &Proc, uses: &Uses, alloc: Global, env: &Env, n: u32) -> Result<Ahead, NoMemory>
    requires uses { IsUses proc.now uses.now }
    requires process { IsProcessAt proc.now n }
    requires names { AllByRecursion (λ b. b.name < length uses.now.names) env.now }
    ensures { IfOk result (λ ahead. LeadsTo proc.now env.now n ahead) }
{
    let numbers = prefixes(proc, alloc, n)?;
    match numbers.as_slice() {
        [] => Ok(Ahead::of(None, Vec::new(alloc))),
        [first, rest @ ..] => Ok(Ahead::of(
            Some(*first),
            begin_all(uses, alloc, env.as_slice(), rest)?,
        )),
    }
}
