//! Where parts go on: from the opening, after a deed, and after values were received.

ghost use Rattle.std.specs.Prelude.{◌≡◌, ◌++◌, ◌∷◌, [], true, IfOk, IfErr};
ghost use Rattle.std.specs.List.{AllByRecursion};
ghost use Rattle.cqp_parts.specs.Parts.{opening_parts, parts_from, parts_after, parts_after_input};
ghost use Rattle.cqp_parts.specs.Parts.{node_at, with_result_of, body_of, bound_by};
ghost use Rattle.cqp_parts.specs.Parts.{bound_to};
ghost use Rattle.cqp_uses.specs.Users.{IsUses};
ghost use Rattle.cqp_parts.specs.Parts.{IsProcessAt};
ghost use Rattle.cqp_parts.specs.Parts.{process_of_part};
ghost use Rattle.cqp_standing.specs.Stands.{Stands};
ghost use Rattle.cqp_standing.specs.Suits.{suits, takes};
ghost use Rattle.cqp_onward.specs.Leads.{LeadsOn};

use crate::ahead::Ahead;
use crate::binding::all_bound_goes;
use crate::effect::{Effect, body, effect_of};
use crate::moved::{ahead_at, goes_to};
use crate::parts::{Parts, Refused};
use cqp_parts::{Env, Part, Vals};
use cqp_syntax::{NoMemory, Node, Proc, Val};
use cqp_trace::Deed;
use cqp_uses::Uses;
use std::alloc::{AllocError, Global};

/// The parts of the opening.
pub fn opening(proc: &Proc, uses: &Uses, alloc: Global) -> Result<Parts, NoMemory>
    requires { IsUses proc.now uses.now }
    ensures exact { IfOk result (λ parts. parts ≡ opening_parts proc.now) }
    ensures stand { IfOk result (λ parts. AllByRecursion (Stands proc.now) parts) }
{
    let part = Part {
        node: 0,
        env: Env::new(alloc),
        vals: Vals::new(alloc),
    };
    match goes_to(proc, uses, alloc, part, 0) {
        Ok(parts) => Ok(parts),
        Err(_) => Err(AllocError),
    }
}

/// The parts in the place of a part after a deed of its own, or after it has sent.
pub fn go_on(
    proc: &Proc,
    uses: &Uses,
    alloc: Global,
    part: Part,
    deed: &Deed,
) -> Result<Parts, Refused>
    requires uses { IsUses proc.now uses.now }
    requires stands { Stands proc.now part }
    ensures ok { IfOk result (λ parts. parts ≡ parts_after proc.now part deed.now) }
    ensures stand { IfOk result (λ parts. suits (process_of_part proc.now part) deed.now ≡ true
        → AllByRecursion (Stands proc.now) parts) }
    ensures err { IfErr result (λ e. e.part ≡ part) }
{
    after(proc, uses, alloc, part, deed)
}

/// The parts after a deed, whether or not it suits.
fn after(proc: &Proc, uses: &Uses, alloc: Global, part: Part, deed: &Deed) -> Result<Parts, Refused>
    requires uses { IsUses proc.now uses.now }
    requires stands { Stands proc.now part }
    ensures ok { IfOk result (λ parts. parts ≡ parts_after proc.now part deed.now) }
    ensures err { IfErr result (λ e. e.part ≡ part) }
{
    match effect_of(proc, &part, deed) {
        Effect::Reduces(val) => with_result(alloc, part, val),
        Effect::Binds(val) => bound_goes(proc, uses, alloc, part, val),
        Effect::Ends(n) => goes_to(proc, uses, alloc, part, n),
    }
}

/// Where a part goes on once it has sent. It stays as it is until then, so a caller can still
/// refuse. `Err` is want of memory.
pub fn look_ahead(proc: &Proc, uses: &Uses, alloc: Global, part: &Part) -> Result<Ahead, NoMemory>
    requires uses { IsUses proc.now uses.now }
    requires stands { Stands proc.now part.now }
    ensures { IfOk result (λ ahead. LeadsOn proc.now part.now ahead) }
{
    let n = body(proc.node(part.node));
    ahead_at(proc, uses, alloc, &part.env, n)
}

/// The parts in the place of a receiver.
pub fn receive(
    proc: &Proc,
    uses: &Uses,
    alloc: Global,
    part: Part,
    vals: &Vals,
) -> Result<Parts, Refused>
    requires uses { IsUses proc.now uses.now }
    requires stands { Stands proc.now part }
    ensures ok { IfOk result (λ parts. parts ≡ parts_after_input proc.now part vals.now) }
    ensures stand { IfOk result (λ parts. takes (process_of_part proc.now part) vals.now ≡ true
        → AllByRecursion (Stands proc.now) parts) }
    ensures err { IfErr result (λ e. e.part ≡ part) }
{
    received(proc, uses, alloc, part, vals.as_slice())
}

/// The parts behind an input, however many values come.
fn received(
    proc: &Proc,
    uses: &Uses,
    alloc: Global,
    part: Part,
    vals: &[Val],
) -> Result<Parts, Refused>
    requires uses { IsUses proc.now uses.now }
    requires stands { Stands proc.now part }
    ensures ok { IfOk result (λ parts. parts ≡ parts_after_input proc.now part vals.now) }
    ensures err { IfErr result (λ e. e.part ≡ part) }
{
    let node = proc.node(part.node);
    let n = body(node);
    match node {
        Node::In { params, .. } => {
            let names = params.as_slice();
            all_bound_goes(proc, uses, alloc, part, names, vals, n)
        }
        _ => goes_to(proc, uses, alloc, part, n),
    }
}

/// The part with one redex more reduced.
fn with_result(alloc: Global, mut part: Part, val: Val) -> Result<Parts, Refused>
    ensures ok { IfOk result (λ parts. parts ≡ with_result_of part val ∷ []) }
    ensures err { IfErr result (λ e. e.part ≡ part) }
{
    match part.vals.push(val) {
        Ok(()) => Ok(Parts::one(alloc, part)),
        Err(_) => Err(Refused { part }),
    }
}

/// The parts behind a binder, where its name has the value.
fn bound_goes(
    proc: &Proc,
    uses: &Uses,
    alloc: Global,
    part: Part,
    val: Val,
) -> Result<Parts, Refused>
    requires uses { IsUses proc.now uses.now }
    requires stands { Stands proc.now part }
    ensures ok { IfOk result (λ parts. parts ≡ parts_from proc.now (part.env
        ++ bound_by (node_at proc.now part.node) val) (body_of (node_at proc.now part.node))) }
    ensures err { IfErr result (λ e. e.part ≡ part) }
{
    let node = proc.node(part.node);
    let n = body(node);
    match node {
        Node::New { name, body: _ } | Node::Qbit { name, body: _ } => {
            all_bound_goes(proc, uses, alloc, part, &[*name], &[val], n)
        }
        _ => goes_to(proc, uses, alloc, part, n),
    }
}
