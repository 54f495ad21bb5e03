//! Laws of paths, for proofs in the crates above. Each call does nothing, and its contract is the
//! law.

ghost use Rattle.std.specs.Prelude.{◌≡◌, ◌<◌, ◌≤◌, ◌+◌, ◌^◌, ℕ, List, [], ◌∷◌, ◌++◌, length, true};
ghost use Rattle.std.specs.Prelude.{IsSome, Some, max};
ghost use Rattle.std.specs.List.{list_all};
ghost use Rattle.cqp_ring.specs.Root.{root_total};
ghost use Rattle.cqp_syntax.specs.Binders.{HasDistinctBinders};
ghost use Rattle.cqp_syntax.specs.Listing.{IsProc, Listing, root};
ghost use Rattle.cqp_syntax.specs.Measures.{need, size};
ghost use Rattle.cqp_syntax.specs.Trees.{Process};
ghost use Rattle.cqp_trace.specs.Writable.{has_line};
ghost use Rattle.cqp_trace.specs.declared.deed.Deed.{Deed};
ghost use Rattle.cqp_trace.specs.declared.entry.Entry.{Entry};
ghost use Rattle.cqp_types.specs.Derivations.{IsDerivable};
ghost use Rattle.cqp_vector.specs.Measurement.{is_outcome};
ghost use Rattle.cqp_vector.specs.State.{HasEachPlace, State, norm_of_state};
ghost use Rattle.cqp_cells.specs.Config.{Config, part_at, start_of};
ghost use Rattle.cqp_cells.specs.Examples.{by};
ghost use Rattle.cqp_cells.specs.InRange.{is_in_range};
ghost use Rattle.cqp_cells.specs.Norms.{IsState};
ghost use Rattle.cqp_cells.specs.Operated.{is_operated};
ghost use Rattle.cqp_cells.specs.Order.{IsLeastActive, IsPlainFrom, IsPlainNext, greatest_part};
ghost use Rattle.cqp_cells.specs.Order.{least_part};
ghost use Rattle.cqp_cells.specs.Path.{after};
ghost use Rattle.cqp_cells.specs.Rows.{Fits};
ghost use Rattle.cqp_cells.specs.Size.{size_left, total};
ghost use Rattle.cqp_cells.specs.Step.{ReductionIsLeft, next};
ghost use Rattle.cqp_cells.specs.Waiting.{CanGoOn, IsActive, IsStuck, MeetEither, is_waiting};
ghost use Rattle.cqp_paths.specs.Follows.{norms_of};
ghost use Rattle.cqp_paths.specs.Safe.{IsSafe, IsSafeAlong};

/// What was done and what is left are together at most the size of the process, and the qubits made
/// and those that what is left needs are together at most its need.
pub fn size_laws()
    ensures along { (p : Process) (es : List Entry) (c : Config) → after (start_of p) es ≡ Some c
        → length es + size_left c ≤ size p }
    ensures need { (p : Process) (es : List Entry) (c : Config) → after (start_of p) es ≡ Some c
        → c.state.qubits + total need c.parts ≤ need p }
{}

/// After each list of entries of a derivable process whose binders are distinct, as those of a
/// `Proc` are, each part is typed by the channels and the qubits that it owns, no qubit has two
/// owners, and no operand is wrong.
pub fn safe_laws()
    ensures binders { (l : Listing) → IsProc l → HasDistinctBinders (root l) }
    ensures after { (p : Process) → IsDerivable p → HasDistinctBinders p
        → (es : List Entry) (c : Config) → after (start_of p) es ≡ Some c → IsSafe c }
    ensures along { (p : Process) → IsDerivable p → HasDistinctBinders p
        → (es : List Entry) → IsSafeAlong p es }
{}

/// A state that isn't 0 has an outcome of each measurement, and the norms of all sum to its norm.
/// No state on the way is 0.
pub fn measurement_laws()
    ensures outcome { (qs : List ℕ) (s : State) → IsState s
        → (m : ℕ) × (m < 2 ^ length qs) × (is_outcome qs s m ≡ true) }
    ensures total { (qs : List ℕ) (s : State) → HasEachPlace s
        → root_total (norms_of qs s) ≡ norm_of_state s }
    ensures state { (p : Process) (es : List Entry) (c : Config)
        → after (start_of p) es ≡ Some c → IsState c.state }
{}

/// A part that doesn't wait goes on, and two that meet communicate. Where all wait and none meet,
/// no reduction is left.
pub fn progress_laws()
    ensures goes_on { (p : Process) → IsDerivable p → HasDistinctBinders p
        → (es : List Entry) (c : Config) → after (start_of p) es ≡ Some c → CanGoOn c }
    ensures ends { (c : Config) → IsStuck c → ReductionIsLeft c → ⊥ }
{}

/// A part that takes part in a reduction doesn't wait or meets another. Where what can go on does,
/// the least of these parts is the least that takes part in some reduction.
pub fn active_laws()
    ensures active { (c : Config) (e : Entry) (d : Config) → next c e ≡ Some d
        → IsActive c (least_part e) }
    ensures least { (c : Config) (i : ℕ) → CanGoOn c → IsActive c i
        → ((j : ℕ) → IsActive c j → i ≤ j) → IsLeastActive c i }
{}

/// The entry of the least active part, or its communication with the least partner, is the next in
/// plain order, and entries in plain order go on by the next.
pub fn order_laws()
    ensures alone { (c : Config) (i : ℕ) (p : Process) (d : Deed) → part_at i c.parts ≡ Some p
        → Fits c.state c.chans p d → ((j : ℕ) → IsActive c j → i ≤ j) → IsPlainNext c (by i d) }
    ensures meeting { (c : Config) (i j : ℕ) (p : Process) (e : Entry)
        → part_at i c.parts ≡ Some p → is_waiting p ≡ true → IsSome (next c e)
        → least_part e ≡ i → greatest_part e ≡ max i j → ((n : ℕ) → IsActive c n → i ≤ n)
        → ((n k : ℕ) (q : Process) → part_at n c.parts ≡ Some q → MeetEither k p q → j ≤ n)
        → IsPlainNext c e }
    ensures goes_on { (c d : Config) (es : List Entry) (e : Entry)
        → IsPlainFrom c es → after c es ≡ Some d → IsPlainNext d e → IsPlainFrom c (es ++ e ∷ []) }
{}

/// Each gate and measurement of a `Proc` has an operand. Where they have, each entry of a path of a
/// process that needs at most 12 qubits has a line in a trace's text, if its numbers of parts and
/// channels are in range.
pub fn written_laws()
    ensures operated { (l : Listing) → IsProc l → is_operated (root l) ≡ true }
    ensures entries { (p : Process) (es : List Entry) (c : Config)
        → is_operated p ≡ true → need p ≤ 12 → after (start_of p) es ≡ Some c
        → list_all is_in_range es ≡ true → list_all has_line es ≡ true }
{}
