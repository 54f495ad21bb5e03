//! Laws of types, for the crates above. Each call does nothing, and its contract is the law.

ghost use Rattle.std.specs.Prelude.{◌≡◌, ◌↔◌, List, [], ◌∷◌, true};
ghost use Rattle.cqp_syntax.specs.declared.val.Val.{Val};
ghost use Rattle.cqp_syntax.specs.TypeTrees.{TypeTree};
ghost use Rattle.cqp_syntax.specs.Trees.{Slot, Expr, Binder, Process};
ghost use Rattle.cqp_syntax.specs.Binders.{binders_of, HasDistinctBinders};
ghost use Rattle.cqp_syntax.specs.Scope.{is_scoped};
ghost use Rattle.cqp_syntax.specs.Free.{is_among, expr_slots, free_slots};
ghost use Rattle.cqp_syntax.specs.Substitution.{expr_with, with_value};
ghost use Rattle.cqp_syntax.specs.Listing.{Listing, IsProc, root};
ghost use Rattle.cqp_types.specs.Contexts.{Context, Has, binding, leaving};
ghost use Rattle.cqp_types.specs.Derivations.{HasType, Derives, IsDerivable};
ghost use Rattle.cqp_types.specs.Faults.{HasNoFault};
ghost use Rattle.cqp_types.specs.Laws.{NoneFails, IsWithin, AreApart, Unbound};
ghost use Rattle.cqp_types.specs.Laws.{IsValueFor};

/// A closed process with distinct binders is derivable exactly where no node fails, and so is one
/// that is given by its lists.
pub fn derivation_laws()
    ensures tree { (p : Process) → is_scoped [] p ≡ true → HasDistinctBinders p
        → IsDerivable p ↔ NoneFails p }
    ensures lists { (l : Listing) → IsProc l → IsDerivable (root l) ↔ HasNoFault l }
{}

/// Each slot that is free in what is typed has a type in the context.
pub fn free_slot_laws()
    ensures expr { (g : Context) (e : Expr) (t : TypeTree) → HasType g e t
        → (s : Slot) → is_among s (expr_slots e) ≡ true → (u : TypeTree) × Has g s u }
    ensures process { (g : Context) (p : Process) → Derives g p
        → (s : Slot) → is_among s (free_slots p) ≡ true → (u : TypeTree) × Has g s u }
{}

/// Entries may be added to a context.
pub fn weakening_laws()
    ensures expr { (g h : Context) (e : Expr) (t : TypeTree) → IsWithin g h
        → HasType g e t → HasType h e t }
    ensures process { (g h : Context) (p : Process) → IsWithin g h
        → Derives g p → Derives h p }
{}

/// Entries of slots that are not free may be left out of a context.
pub fn strengthening_laws()
    ensures expr { (g : Context) (taken : List Slot) (e : Expr) (t : TypeTree)
        → AreApart taken (expr_slots e) → HasType g e t → HasType (leaving taken g) e t }
    ensures process { (g : Context) (taken : List Slot) (p : Process)
        → AreApart taken (free_slots p) → Derives g p → Derives (leaving taken g) p }
{}

/// A value of the type of a name may take its place, be it a number, a gate, a channel, or a qubit
/// that is not free there.
pub fn value_laws()
    ensures expr { (g h : Context) (b : Binder) (v : Val) (e : Expr) (t : TypeTree)
        → IsWithin g h → IsValueFor h b v (expr_slots e)
        → HasType (binding (b ∷ []) g) e t → HasType h (expr_with b.name v e) t }
    ensures process { (g h : Context) (b : Binder) (v : Val) (p : Process)
        → IsWithin g h → IsValueFor h b v (free_slots p) → Unbound b.name (binders_of p)
        → Derives (binding (b ∷ []) g) p → Derives h (with_value b.name v p) }
{}
