//! Laws of exponents, of paths and of their weights, for proofs in the crates above. Each call does
//! nothing, and its contract is the law.

ghost use Rattle.std.specs.Prelude.{◌≡◌, ◌≤◌, ◌+◌, ◌^◌, ℕ, List, [], ◌∷◌, ◌++◌, Some};
ghost use Rattle.cqp_ring.specs.declared.weight.Weight.{Weight};
ghost use Rattle.cqp_ring.specs.Weight.{IsLeast, IsSameNumber};
ghost use Rattle.cqp_syntax.specs.Trees.{Process};
ghost use Rattle.cqp_trace.specs.declared.entry.Entry.{Entry};
ghost use Rattle.cqp_vector.specs.State.{State};
ghost use Rattle.cqp_cells.specs.Config.{Config, start_of};
ghost use Rattle.cqp_cells.specs.Probability.{IsProbability};
ghost use Rattle.cqp_cells.specs.Exponent.{IsExponent, exponent_of};
ghost use Rattle.cqp_cells.specs.Norms.{weight_of_path};
ghost use Rattle.cqp_cells.specs.Path.{GoesOn, IsLonger, IsPath, after, h_total};

/// The exponent is the least number that its definition asks for, and no other is. That of a
/// path is at most 90.
pub fn exponent_laws()
    ensures is { (k : ℕ) (s : State) → IsExponent k s (exponent_of k s) }
    ensures only { (k : ℕ) (s : State) (e f : ℕ) → IsExponent k s e → IsExponent k s f → e ≡ f }
    ensures within { (p : Process) (es : List Entry) (c : Config) → IsPath p es c
        → exponent_of (h_total es) c.state ≤ 90 }
{}

/// A path begins with no entry, goes on by an entry that fits and keeps to the limit, and by no
/// other.
pub fn path_laws()
    ensures starts { (p : Process) → IsPath p [] (start_of p) }
    ensures goes_on { (p : Process) (es : List Entry) (e : Entry) (c d : Config)
        → IsPath p es c → GoesOn es c e d → IsPath p (es ++ e ∷ []) d }
    ensures goes_back { (p : Process) (es : List Entry) (e : Entry) (d : Config)
        → IsPath p (es ++ e ∷ []) d → IsLonger p es e d }
{}

/// The probability of a path is its last norm over 2 to the number of H, and two least weights that
/// equal it are one, with a power of two below that is at most 2^90.
pub fn weight_laws()
    ensures is { (p : Process) (es : List Entry) (c : Config)
        → after (start_of p) es ≡ Some c
        → (w : Weight) → IsSameNumber w (weight_of_path es c) → IsProbability p es w }
    ensures only { (p : Process) (es : List Entry) (c : Config)
        → after (start_of p) es ≡ Some c
        → (w : Weight) → IsProbability p es w → IsSameNumber w (weight_of_path es c) }
    ensures one { (p : Process) (es : List Entry) (c : Config)
        → after (start_of p) es ≡ Some c
        → (w v : Weight) → IsLeast w → IsLeast v → IsProbability p es w → IsProbability p es v
        → w ≡ v }
    ensures below { (p : Process) (es : List Entry) (c : Config) → IsPath p es c
        → (w : Weight) → IsLeast w → IsProbability p es w → w.below ≤ 90 }
{}
