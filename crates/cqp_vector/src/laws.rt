//! Laws of groups, for proofs in the crates above. Each call does nothing, and its contract is the
//! law.

ghost use Rattle.std.specs.Prelude.{◌≡◌, ◌+◌, ◌<◌, ℕ, List, length, map, slice_index, sum_by};
ghost use Rattle.std.specs.Prelude.{false, true};
ghost use Rattle.std.specs.List.{list_all};
ghost use Rattle.cqp_ring.specs.declared.amp.Amp.{Amp};
ghost use Rattle.cqp_ring.specs.Parity.{has_even_sum};
ghost use Rattle.cqp_ring.specs.Root.{norm_sum, root_product};
ghost use Rattle.cqp_ring.specs.Weight.{power_root};
ghost use Rattle.cqp_syntax.specs.declared.op.Op.{Op};
ghost use Rattle.cqp_syntax.specs.declared.op.Op.TheVariants.{H};
ghost use Rattle.cqp_syntax.specs.Gates.{places_of};
ghost use Rattle.cqp_vector.specs.Gate.{gate_of};
ghost use Rattle.cqp_vector.specs.Group.{CanJoin, Group, IsGroup, IsSmall, factors_left_out};
ghost use Rattle.cqp_vector.specs.Group.{gated, joined, level_of, made_least, product_of};
ghost use Rattle.cqp_vector.specs.Group.{projection, state_of};
ghost use Rattle.cqp_vector.specs.Least.{IsLeastFormOf, Over, least_over};
ghost use Rattle.cqp_vector.specs.Measurement.{is_outcome};
ghost use Rattle.cqp_vector.specs.Odds.{odds_of};
ghost use Rattle.cqp_vector.specs.Pieces.{IsProjectedOn, pieces_of};
ghost use Rattle.cqp_vector.specs.Products.{AreBits, amp_with, product_with};
ghost use Rattle.cqp_vector.specs.State.{HasEachPlace, State, amp_at, grown, norm_of_state};
ghost use Rattle.cqp_vector.specs.Places.{ArePlaces};

/// Made least, numerators are a least form of the same amplitudes, and the only one. The norm over
/// 2 to the exponent stays.
pub fn least_laws()
    ensures form { (nums : List Amp) (h : ℕ) → IsLeastFormOf (least_over nums h) nums h }
    ensures only { (x : Over) (nums : List Amp) (h : ℕ)
        → IsLeastFormOf x nums h → x ≡ least_over nums h }
    ensures norm { (nums : List Amp) (h : ℕ)
        → root_product (power_root h) (norm_sum (least_over nums h).nums)
        ≡ root_product (power_root (least_over nums h).h) (norm_sum nums) }
{}

/// Gates, projections and joins, made least, keep what each factor keeps.
pub fn kept_laws()
    ensures gates { (g : Group) (o : Op) (ps : List ℕ) → IsGroup g → ArePlaces (length g.qubits) ps
        → length ps ≡ places_of o → (o ≡ H → g.h < 90) → IsGroup (made_least (gated o ps g)) }
    ensures projections { (g : Group) (ps : List ℕ) (m : ℕ) → IsGroup g
        → is_outcome ps (state_of g) m ≡ true → IsGroup (made_least (projection ps m g)) }
    ensures joins { (g f : Group) → IsGroup g → IsGroup f → CanJoin g f
        → IsGroup (made_least (joined g f)) }
{}

/// In what each factor keeps, no part of a numerator is over 2^45, and where the exponent is 0 some
/// numerator has an odd sum of its parts.
pub fn group_laws()
    ensures small { (g : Group) (k : ℕ) → IsGroup g → IsSmall (amp_at g.nums k) }
    ensures odd { (g : Group) → IsGroup g → g.h ≡ 0 → list_all has_even_sum g.nums ≡ false }
{}

/// The level of a join is the sum of the levels, and so is that of a group which is split.
pub fn level_laws()
    ensures joins { (g f : Group) → IsGroup g → IsGroup f
        → level_of (made_least (joined g f)) ≡ level_of g + level_of f }
    ensures splits { (g : Group) (ps : List ℕ) (m : ℕ) → IsGroup g → ArePlaces (length g.qubits) ps
        → 0 < length ps → IsProjectedOn ps m g
        → sum_by level_of (pieces_of ps m g) ≡ level_of g }
{}

/// Whatever bits the qubits have, the numerators of the pieces of a split multiply to that of the
/// group, and the exponents of the pieces add to the group's.
pub fn piece_laws()
    ensures products { (g : Group) (ps : List ℕ) (m : ℕ) (b : ℕ → ℕ) → IsGroup g
        → ArePlaces (length g.qubits) ps → 0 < length ps → IsProjectedOn ps m g → AreBits b
        → product_with b (pieces_of ps m g) ≡ amp_with b g }
    ensures exponents { (g : Group) (ps : List ℕ) (m : ℕ) → 0 < length ps
        → sum_by (λ (f : Group). f.h) (pieces_of ps m g) ≡ g.h }
{}

/// Each outcome that a factor tells can be projected on, and what is projected can be split.
pub fn outcome_laws()
    ensures told { (ps : List ℕ) (s : State) (i : ℕ) → i < length (odds_of ps s)
        → is_outcome ps s (slice_index (map (λ o. o.outcome) (odds_of ps s)) i) ≡ true }
    ensures projected { (g : Group) (ps : List ℕ) (m : ℕ)
        → IsProjectedOn ps m (made_least (projection ps m g)) }
{}

/// H doubles the norm of a state, and the other gates and a new qubit keep it. The norm of a
/// product is the product of the norms.
pub fn state_laws()
    ensures gates { (o : Op) (qs : List ℕ) (s : State) → HasEachPlace s → length qs ≡ places_of o
        → ArePlaces s.qubits qs
        → norm_of_state (gate_of o qs s)
        ≡ root_product (power_root (factors_left_out o)) (norm_of_state s) }
    ensures grown { (s : State) → HasEachPlace s → norm_of_state (grown s) ≡ norm_of_state s }
    ensures products { (xs ys : List Amp)
        → norm_sum (product_of xs ys) ≡ root_product (norm_sum xs) (norm_sum ys) }
{}
