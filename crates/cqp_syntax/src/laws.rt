//! Laws of the words of the language. Each call does nothing, and its contract is the law.

ghost use Rattle.std.specs.Prelude.{◌≡◌, ◌↔◌, ℕ, List, true, IsTrue};
ghost use Rattle.cqp_syntax.specs.declared.op.Op.{Op};
ghost use Rattle.cqp_syntax.specs.Gates.{is_same_op};
ghost use Rattle.cqp_syntax.specs.Lists.{is_same_list};
ghost use Rattle.cqp_syntax.specs.TypeTrees.{TypeTree, same_type};

/// What passes a test of sameness is the same: two gates, two lists of numbers, and two types.
pub fn sameness_laws()
    ensures gates { (o u : Op) → is_same_op o u ≡ true → o ≡ u }
    ensures lists { (xs ys : List ℕ) → is_same_list xs ys ≡ true → xs ≡ ys }
    ensures types { (t u : TypeTree) → IsTrue (same_type t u) ↔ (t ≡ u) }
{}
