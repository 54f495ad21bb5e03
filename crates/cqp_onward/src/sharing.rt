//! Parts that begin side by side, among whom bindings are shared out.

ghost use Rattle.std.specs.Prelude.{◌≡◌, ◌≢◌, ◌<◌, ◌≤◌, ◌++◌, ◌∷◌, [], length, map, ℕ, List};
ghost use Rattle.std.specs.Prelude.{slice_index, slice_index_or, if◌then◌else◌, IfOk, OnOk};
ghost use Rattle.std.specs.List.{AllByRecursion};
ghost use Rattle.cqp_syntax.specs.Listing.{Listing};
ghost use Rattle.cqp_parts.specs.declared.bind.Bind.{Bind};
ghost use Rattle.cqp_parts.specs.declared.part.Part.{Part};
ghost use Rattle.cqp_parts.specs.Parts.{begins_at, IsProcessAt};
ghost use Rattle.cqp_uses.specs.Users.{IsUses};
ghost use Rattle.cqp_onward.specs.Sharing.{bare_at, with_binding, StandApart};

use cqp_parts::{Bind, Env, Part, Vals};
use cqp_syntax::NoMemory;
use cqp_uses::Uses;
use std::alloc::Global;

/// Parts at these prefixes, each with the bindings of the names that are free there. Each binding
/// takes a search for each part that gets it, and one more.
pub(crate) fn begin_all(
    uses: &Uses,
    alloc: Global,
    env: &[Bind],
    numbers: &[u32],
) -> Result<Vec<Part>, NoMemory>
    requires within { AllByRecursion (λ n. n < length uses.now.ends) numbers.now }
    requires names { AllByRecursion (λ b. b.name < length uses.now.names) env.now }
    ensures { IfOk result (λ parts. (l : Listing) (a b : ℕ) → IsUses l uses.now
        → AllByRecursion (IsProcessAt l) numbers.now → StandApart l a b numbers.now
        → parts.items ≡ map (begins_at l env.now) numbers.now) }
{
    let mut parts = begin_bare(alloc, numbers)?;
    for bind in env {
        share(uses, *bind, numbers, &mut parts)?;
    }
    Ok(parts)
}

/// Parts at these prefixes, without bindings.
fn begin_bare(alloc: Global, numbers: &[u32]) -> Result<Vec<Part>, NoMemory>
    ensures { IfOk result (λ parts. parts.items ≡ map bare_at numbers.now) }
{
    let mut parts = Vec::new(alloc);
    for n in numbers {
        parts.push(Part {
            node: *n,
            env: Env::new(alloc),
            vals: Vals::new(alloc),
        })?;
    }
    Ok(parts)
}

/// Gives a binding to each part where its name is free: to the one that has the first user of the
/// name, then to the one that has the first user behind that part, and so on.
fn share(uses: &Uses, bind: Bind, numbers: &[u32], parts: &mut Vec<Part>) -> Result<(), NoMemory>
    requires within { AllByRecursion (λ n. n < length uses.now.ends) numbers.now }
    requires named { bind.name < length uses.now.names }
    requires count { length parts.old.items ≡ length numbers.now }
    ensures count { OnOk result (length parts.new.items ≡ length numbers.now) }
    ensures shared { OnOk result ((l : Listing) (a b : ℕ) (before : List Bind) → IsUses l uses.now
        → AllByRecursion (IsProcessAt l) numbers.now → StandApart l a b numbers.now
        → parts.old.items ≡ map (begins_at l before) numbers.now
        → parts.new.items ≡ map (begins_at l (before ++ bind ∷ [])) numbers.now) }
{
    let mut i = 0;
    while i < numbers.len() {
        let Some(user) = uses.user_from(bind.name, numbers[i]) else {
            return Ok(());
        };
        let k = holder(numbers, i, user);
        give(parts, k, bind, user < uses.end(numbers[k]))?;
        i = k + 1;
    }
    Ok(())
}

/// The last place from i on whose number isn't behind a user. No part at another has that user.
fn holder(numbers: &[u32], i: usize, user: u32) -> usize
    requires { i < length numbers.now }
    ensures from { i ≤ result }
    ensures within { result < length numbers.now }
    ensures low { (l : Listing) (a b : ℕ) → StandApart l a b numbers.now
        → slice_index numbers.now i ≤ user → slice_index numbers.now result ≤ user }
    ensures last { (l : Listing) (a b j : ℕ) → StandApart l a b numbers.now
        → result < j → j < length numbers.now → user < slice_index numbers.now j }
{
    i + numbers[i + 1..].partition_point(|n| *n <= user)
}

/// Gives a binding to the part at a place, if it is to have it.
fn give(parts: &mut Vec<Part>, k: usize, bind: Bind, has: bool) -> Result<(), NoMemory>
    requires { k < length parts.old.items }
    ensures count { OnOk result (length parts.new.items ≡ length parts.old.items) }
    ensures others { OnOk result ((j : ℕ) (d : Part) → j ≢ k
        → slice_index_or parts.new.items j d ≡ slice_index_or parts.old.items j d) }
    ensures given { OnOk result ((d : Part) → slice_index_or parts.new.items k d
        ≡ (if has then with_binding bind (slice_index_or parts.old.items k d)
        else slice_index_or parts.old.items k d)) }
{
    if has {
        parts[k].env.push(bind)?;
    }
    Ok(())
}
