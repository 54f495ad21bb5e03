//! Laws of the numbers, for proofs in the crates above. Each call does nothing, and its contract is
//! the law, over whole numbers without bounds.

ghost use Rattle.std.specs.Prelude.{◌≡◌, ◌≢◌, ◌⊎◌, ◌<◌, ◌≤◌, ◌+◌, ℕ, List, length};
ghost use Rattle.std.specs.Prelude.{◌↔◌, true, false, ◌&&◌, not};
ghost use Rattle.cqp_ring.specs.declared.amp.Amp.{Amp};
ghost use Rattle.cqp_ring.specs.declared.root.Root.{Root};
ghost use Rattle.cqp_ring.specs.declared.weight.Weight.{Weight};
ghost use Rattle.cqp_ring.specs.Amp.{IsRoot2Times, amp_difference, amp_product, amp_sum};
ghost use Rattle.cqp_ring.specs.Amp.{root2_amp, w_power, zero_amp};
ghost use Rattle.cqp_ring.specs.Parity.{has_odd_sum, is_root2_times, over_root2};
ghost use Rattle.cqp_ring.specs.Root.{IsAtLeastZero, IsAtMost, IsProportional, norm_of, root_at};
ghost use Rattle.cqp_ring.specs.Root.{root_conjugate, root_product, root_sum, zero_root};
ghost use Rattle.cqp_ring.specs.Weight.{IsLeast, IsSameNumber, IsSameValue};

/// Products commute and associate, that of norms distributes over sums, and powers of w come round
/// after eight.
pub fn ring_laws()
    ensures commutes { (x y : Amp) → amp_product x y ≡ amp_product y x }
    ensures associates { (x y z : Amp)
        → amp_product (amp_product x y) z ≡ amp_product x (amp_product y z) }
    ensures period { (k : ℕ) → w_power (8 + k) ≡ w_power k }
    ensures root_commutes { (x y : Root) → root_product x y ≡ root_product y x }
    ensures root_associates { (x y z : Root)
        → root_product (root_product x y) z ≡ root_product x (root_product y z) }
    ensures root_distributes { (x y z : Root)
        → root_product x (root_sum y z) ≡ root_sum (root_product x y) (root_product x z) }
{}

/// The product of numerators distributes over sums and over differences.
pub fn sum_laws()
    ensures sums { (x y z : Amp)
        → amp_product x (amp_sum y z) ≡ amp_sum (amp_product x y) (amp_product x z) }
    ensures differences { (x y z : Amp) → amp_product x (amp_difference y z)
        ≡ amp_difference (amp_product x y) (amp_product x z) }
{}

/// The norm of a product is the product of the norms, only 0 has the norm 0, and no norm is
/// negative, under neither sign of root 2. The other sign goes along products.
pub fn norm_laws()
    ensures product { (x y : Amp)
        → norm_of (amp_product x y) ≡ root_product (norm_of x) (norm_of y) }
    ensures zero { (x : Amp) → norm_of x ≡ zero_root → x ≡ zero_amp }
    ensures at_least { (x : Amp) → IsAtLeastZero (norm_of x) }
    ensures other_at_least { (x : Amp) → IsAtLeastZero (root_conjugate (norm_of x)) }
    ensures other_product { (x y : Root)
        → root_conjugate (root_product x y) ≡ root_product (root_conjugate x) (root_conjugate y) }
{}

/// The order is total, and goes along sums and along products with numbers at least zero.
pub fn order_laws()
    ensures total { (x y : Root) → IsAtMost x y ⊎ IsAtMost y x }
    ensures both { (x y : Root) → IsAtMost x y → IsAtMost y x → x ≡ y }
    ensures along { (x y z : Root) → IsAtMost x y → IsAtMost y z → IsAtMost x z }
    ensures sums { (x y z t : Root)
        → IsAtMost x y → IsAtMost z t → IsAtMost (root_sum x z) (root_sum y t) }
    ensures products { (x y z : Root)
        → IsAtMost x y → IsAtLeastZero z → IsAtMost (root_product z x) (root_product z y) }
{}

/// Sums and products of numbers at least zero are, and a factor that isn't 0 can be left out.
pub fn sign_laws()
    ensures sum { (x y : Root) → IsAtLeastZero x → IsAtLeastZero y → IsAtLeastZero (root_sum x y) }
    ensures product { (x y : Root)
        → IsAtLeastZero x → IsAtLeastZero y → IsAtLeastZero (root_product x y) }
    ensures cancelled { (n x y : Root)
        → n ≢ zero_root → root_product n x ≡ root_product n y → x ≡ y }
{}

/// No weight of the same number has less below than a least one, and two least weights of one value
/// are equal, since root 2 is irrational.
pub fn weight_laws()
    ensures least { (w v : Weight) → IsLeast w → IsSameNumber w v → w.below ≤ v.below }
    ensures number { (w v : Weight) → IsLeast w → IsLeast v → IsSameNumber w v → w ≡ v }
    ensures value { (w v : Weight) → IsLeast w → IsLeast v → IsSameValue w v → w ≡ v }
{}

/// Proportion of lists goes both ways, and along a list in the middle that isn't 0 throughout.
pub fn list_laws()
    ensures back { (xs ys : List Root) → IsProportional xs ys → IsProportional ys xs }
    ensures along { (xs ys zs : List Root) (k : ℕ) → k < length ys → root_at ys k ≢ zero_root
        → IsProportional xs ys → IsProportional ys zs → IsProportional xs zs }
{}

/// Root 2 divides where the parities say so, and there is one quotient, `over_root2`. A multiple of
/// root 2 has an even sum of its parts.
pub fn root2_laws()
    ensures divides { (x : Amp) → (is_root2_times x ≡ true) ↔ IsRoot2Times x }
    ensures quotient { (x : Amp) → is_root2_times x ≡ true
        → amp_product root2_amp (over_root2 x) ≡ x }
    ensures cancelled { (x y : Amp)
        → amp_product root2_amp x ≡ amp_product root2_amp y → x ≡ y }
    ensures even { (x : Amp) → is_root2_times x ≡ true → has_odd_sum x ≡ false }
{}

/// What the parities of two numerators tell of their product: its sum is odd where both sums are.
/// Where one sum is odd and the other even, root 2 divides it where it divides the even one. Where
/// both are even, root 2 divides it, and the sum of the quotient is odd where it divides neither.
pub fn parity_laws()
    ensures sums { (x y : Amp)
        → has_odd_sum (amp_product x y) ≡ (has_odd_sum x && has_odd_sum y) }
    ensures mixed { (x y : Amp) → has_odd_sum x ≡ true → has_odd_sum y ≡ false
        → is_root2_times (amp_product x y) ≡ is_root2_times y }
    ensures even { (x y : Amp) → has_odd_sum x ≡ false → has_odd_sum y ≡ false
        → is_root2_times (amp_product x y) ≡ true }
    ensures quotients { (x y : Amp) → has_odd_sum x ≡ false → has_odd_sum y ≡ false
        → has_odd_sum (over_root2 (amp_product x y))
        ≡ (not (is_root2_times x) && not (is_root2_times y)) }
{}
