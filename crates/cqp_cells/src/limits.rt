//! What the definitions say of exponents, owners, operands and sizes in small cases. Each fact is a
//! clause, and the bodies are empty.

ghost use Rattle.std.specs.Prelude.{◌≡◌, [], ◌∷◌, true, false};
ghost use Rattle.cqp_ring.specs.Amp.{one_amp, zero_amp};
ghost use Rattle.cqp_syntax.specs.declared.op.Op.TheVariants as op;
ghost use Rattle.cqp_syntax.specs.declared.val.Val.TheVariants as val;
ghost use Rattle.cqp_syntax.specs.Examples.{one_gate};
ghost use Rattle.cqp_syntax.specs.Trees.{add, apply, branch, measure, named, nil, sig, slot};
ghost use Rattle.cqp_syntax.specs.Trees.{valued};
ghost use Rattle.cqp_trace.specs.declared.deed.Deed.TheVariants as deed;
ghost use Rattle.cqp_trace.specs.declared.end.End.TheVariants as end;
ghost use Rattle.cqp_cells.specs.Cases.{acts, alone, alone_in, at, bell_pair, gate_on, meeting};
ghost use Rattle.cqp_cells.specs.Cases.{num, receives, receives_none, sends};
ghost use Rattle.cqp_cells.specs.Examples.{done, one_over, qubit_with};
ghost use Rattle.cqp_cells.specs.Teleportation.{teleportation};
ghost use Rattle.cqp_cells.specs.Repeated.{last_of_91, many_h, many_h_entries, on_name, on_number};
ghost use Rattle.cqp_cells.specs.Repeated.{one_turn, shared, whole};
ghost use Rattle.cqp_cells.specs.Repeated.{last_of, stopped_trace, turns};
ghost use Rattle.cqp_cells.specs.Repeated.{turns_entries};
ghost use Rattle.cqp_cells.specs.Exponent.{exponent_of};
ghost use Rattle.cqp_cells.specs.Lawful.{IsLawful, exponent_after};
ghost use Rattle.cqp_cells.specs.Operands.{has_wrong_operand};
ghost use Rattle.cqp_cells.specs.Owners.{owners};
ghost use Rattle.cqp_syntax.specs.Measures.{size};

/// Exponents of a start, one H, two H, and H, T, H.
pub(crate) fn exponents()
    ensures zero { exponent_of 0 (qubit_with one_amp zero_amp) ≡ 0 }
    ensures one { exponent_of 1 (qubit_with one_amp one_amp) ≡ 1 }
    ensures two { exponent_of 2 (qubit_with (whole 2) zero_amp) ≡ 0 }
    ensures three { exponent_of 3 (qubit_with (whole 2) (whole 2)) ≡ 1 }
    ensures turn { exponent_of 2 one_turn ≡ 2 }
    ensures last { exponent_of 91 last_of_91.state ≡ 1 }
{}

/// 91 H on one qubit, and H and 3 times T and H, have these traces.
pub(crate) fn traces_of_many_h()
    ensures many_h { IsLawful (many_h 91) (done (many_h_entries 91) (one_over 0)) }
    ensures turns { IsLawful (turns 3) (done (turns_entries 3) (one_over 0)) }
{}

/// H and 177 times T and H run to their end, and one more pair stops before its H, at exponent 90.
pub(crate) fn at_the_limit()
    ensures done { IsLawful (turns 177) (done (turns_entries 177) (one_over 0)) }
    ensures stopped { IsLawful (turns 178) stopped_trace }
{}

/// After i times T and H behind an H, the exponent is half of i + 2, rounded up. After an even
/// number of H alone it is 0.
pub(crate) fn exponents_of_turns()
    ensures ninety { exponent_after (many_h_entries 90)
        (last_of (many_h 91) (many_h_entries 90)) ≡ 0 }
    ensures two { exponent_after (turns_entries 2) (last_of (turns 2) (turns_entries 2)) ≡ 2 }
    ensures three { exponent_after (turns_entries 3) (last_of (turns 3) (turns_entries 3)) ≡ 3 }
    ensures six { exponent_after (turns_entries 6) (last_of (turns 6) (turns_entries 6)) ≡ 4 }
{}

/// Sizes.
pub(crate) fn sizes()
    ensures gate { size one_gate ≡ 3 }
    ensures teleportation { size teleportation ≡ 18 }
{}

/// Two parts that hold one qubit own it, and none owns another.
pub(crate) fn two_owners()
    ensures both { owners 0 shared ≡ 0 ∷ 1 ∷ [] }
    ensures none { owners 1 shared ≡ [] }
{}

/// Each wrong operand, and right ones.
pub(crate) fn wrong_operands()
    ensures name { has_wrong_operand (at (slot (named 4))) ≡ true }
    ensures name_of_qubit { has_wrong_operand (at (measure (named 4 ∷ []))) ≡ true }
    ensures name_of_channel { has_wrong_operand (alone on_name) ≡ true }
    ensures sum { has_wrong_operand (at (add (num 1) (slot (valued val.Unit)))) ≡ true }
    ensures pick { has_wrong_operand (at (sig (slot (valued (val.Qubit 0))))) ≡ true }
    ensures branch { has_wrong_operand (alone
        (branch (num 1) (slot (valued val.Unit)) nil nil)) ≡ true }
    ensures not_made { has_wrong_operand (at (gate_on op.X (1 ∷ []))) ≡ true }
    ensures twice { has_wrong_operand (alone_in bell_pair
        (acts (gate_on op.CNot (1 ∷ 1 ∷ [])))) ≡ true }
    ensures not_gate { has_wrong_operand (at (apply (valued (val.Qubit 0) ∷ []) (num 1))) ≡ true }
    ensures places { has_wrong_operand (at (gate_on op.CNot (0 ∷ []))) ≡ true }
    ensures channel { has_wrong_operand (alone on_number) ≡ true }
    ensures count { has_wrong_operand (meeting (sends 0 nil) receives_none) ≡ true }
    ensures right { has_wrong_operand (at (gate_on op.X (0 ∷ []))) ≡ false }
    ensures right_count { has_wrong_operand (meeting (sends 0 nil) (receives 0 nil)) ≡ false }
    ensures other_channel { has_wrong_operand (meeting (sends 1 nil) receives_none) ≡ false }
{}
