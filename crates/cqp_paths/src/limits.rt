//! What the definitions say of the plain order and of safety in small cases. Each fact is a clause,
//! and the bodies are empty.

ghost use Rattle.std.specs.Prelude.{◌≡◌, false};
ghost use Rattle.cqp_syntax.specs.Trees.{named, slot};
ghost use Rattle.cqp_trace.specs.declared.deed.Deed.TheVariants as deed;
ghost use Rattle.cqp_cells.specs.Cases.{at};
ghost use Rattle.cqp_cells.specs.Examples.{by};
ghost use Rattle.cqp_cells.specs.Operands.{has_wrong_operand};
ghost use Rattle.cqp_cells.specs.Order.{IsPlainNext};
ghost use Rattle.cqp_cells.specs.Repeated.{receiver_first, shared};
ghost use Rattle.cqp_paths.specs.Examples.{name_left_later};
ghost use Rattle.cqp_paths.specs.Safe.{IsSafe};

/// The least part decides, be it the receiver.
pub(crate) fn receiver_decides()
    ensures next { IsPlainNext receiver_first (by 1 (deed.Com 0 0)) }
{}

/// Two parts that hold one qubit are not safe, nor is a name in the place of a value, even where
/// only a later prefix has it, so that no operand is wrong yet.
pub(crate) fn unsafe_cases()
    ensures owners { IsSafe shared → ⊥ }
    ensures operand { IsSafe (at (slot (named 4))) → ⊥ }
    ensures right { has_wrong_operand name_left_later ≡ false }
    ensures later { IsSafe name_left_later → ⊥ }
{}
