//! Proportional odds are answered alike. Each call does nothing, and its contract is the law.

ghost use Rattle.std.specs.Prelude.{◌≡◌, ℕ, List};
ghost use Rattle.cqp_ring.specs.declared.root.Root.{Root};
ghost use Rattle.cqp_ring.specs.Root.{IsProportional};
ghost use Rattle.cqp_choose.specs.Odds.{IsFair};
ghost use Rattle.cqp_choose.specs.Picks.{IsBornIndex, script_index, seed_index};

use cqp_ring::{list_laws, order_laws, ring_laws, sign_laws};

/// `script_pick` and `seed_pick` answer alike on proportional odds.
pub fn pick_laws()
    ensures script { (script : List ℕ) (turn : ℕ) (xs ys : List Root) → IsProportional xs ys
        → script_index script turn xs ≡ script_index script turn ys }
    ensures seed { (seed turn : ℕ) (xs ys : List Root) → IsProportional xs ys
        → seed_index seed turn xs ≡ seed_index seed turn ys }
{}

/// A word has one index at most, and the same on proportional odds, whatever their size.
pub fn born_laws()
    ensures one { (word : ℕ) (odds : List Root) (i j : ℕ)
        → IsBornIndex word odds i → IsBornIndex word odds j → i ≡ j }
    ensures alike { (word : ℕ) (xs ys : List Root) (i : ℕ)
        → IsFair xs → IsFair ys → IsProportional xs ys
        → IsBornIndex word xs i → IsBornIndex word ys i }
{
    ring_laws();
    list_laws();
    order_laws();
    sign_laws();
}
