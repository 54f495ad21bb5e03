//! Bindings of the names that are free at a node.

ghost use Rattle.std.specs.Prelude.{◌≡◌, ◌<◌, ◌+◌, length, slice_set, if◌then◌else◌};
ghost use Rattle.std.specs.List.{AllByRecursion};
ghost use Rattle.cqp_syntax.specs.Listing.{Listing};
ghost use Rattle.cqp_parts.specs.Parts.{kept_at, IsProcessAt};
ghost use Rattle.cqp_uses.specs.Users.{IsUses};

use cqp_lists::List;
use cqp_parts::{Bind, Env};
use cqp_uses::Uses;

/// The bindings of names that are free at node n, in their memory.
pub(crate) fn keep(env: Env, uses: &Uses, n: u32) -> Env
    requires within { n < length uses.now.ends }
    requires names { AllByRecursion (λ b. b.name < length uses.now.names) env }
    ensures { (l : Listing) → IsUses l uses.now → IsProcessAt l n → result ≡ kept_at l n env }
{
    let mut items = env.into_vec();
    retain_free(&mut items, uses, n);
    List::from_vec(items)
}

/// Drops the bindings of names that aren't free at node n.
fn retain_free(items: &mut Vec<Bind>, uses: &Uses, n: u32)
    requires within { n < length uses.now.ends }
    requires names { AllByRecursion (λ b. b.name < length uses.now.names) items.old.items }
    ensures { (l : Listing) → IsUses l uses.now → IsProcessAt l n
        → items.new.items ≡ kept_at l n items.old.items }
{
    let mut kept = 0;
    for i in 0..items.len() {
        let bind = items[i];
        let stays = uses.is_free(bind.name, n);
        kept = put_if(items, kept, bind, stays);
    }
    items.truncate(kept);
}

/// Puts a binding at a place, if it stays, and answers the next place.
fn put_if(items: &mut Vec<Bind>, at: usize, bind: Bind, stays: bool) -> usize
    requires { at < length items.old.items }
    ensures items { items.new.items
        ≡ (if stays then slice_set items.old.items at bind else items.old.items) }
    ensures next { result ≡ (if stays then at + 1 else at) }
{
    if stays {
        items[at] = bind;
        at + 1
    } else {
        at
    }
}
