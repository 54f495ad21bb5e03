//! Which traces are runs and plain runs of small processes. Each fact is a clause, and the bodies
//! do nothing.

ghost use Rattle.std.specs.Prelude.{◌≡◌, ◌%◌, ℕ, List, slice_index};
ghost use Rattle.cqp_cells.specs.Repeated.{many_h};
ghost use Rattle.cqp_cells.specs.Teleportation.{teleportation};
ghost use Rattle.cqp_paths.specs.Examples.{first_first, many_h_trace, second_first};
ghost use Rattle.cqp_paths.specs.Examples.{teleportation_trace, two_qubits};
ghost use Rattle.cqp_paths.specs.Runs.{IsPlainRun, IsRun};
ghost use Rattle.cqp_paths.specs.Script.{script_answers};
ghost use Rattle.cqp_types.specs.Derivations.{IsDerivable};

use cqp_types::derivation_laws;

/// Three processes that are derivable, since no node of them fails.
pub(crate) fn derivable_cases()
    ensures teleportation { IsDerivable teleportation }
    ensures many_h { IsDerivable (many_h 91) }
    ensures two_qubits { IsDerivable two_qubits }
{
    derivation_laws();
}

/// Teleportation measures once, with four outcomes. Its trace with the outcome 3 is a plain run
/// under the scripts whose first number is 3 modulo 4, and under no other script a run.
pub(crate) fn teleportation_runs()
    ensures plain { (script : List ℕ) → slice_index script 0 % 4 ≡ 3
        → IsPlainRun (script_answers script) teleportation teleportation_trace }
    ensures no_other { (script : List ℕ)
        → IsRun (script_answers script) teleportation teleportation_trace
        → slice_index script 0 % 4 ≡ 3 }
{
    derivable_cases();
}

/// 91 H on one qubit measure nothing, so their trace is a plain run under each script.
pub(crate) fn many_h_runs()
    ensures { (script : List ℕ)
        → IsPlainRun (script_answers script) (many_h 91) (many_h_trace 91) }
{
    derivable_cases();
}

/// Of two parts that make a qubit each, either may be first in a run, and part 0 in a plain run.
pub(crate) fn orders_of_two()
    ensures plain { (script : List ℕ)
        → IsPlainRun (script_answers script) two_qubits first_first }
    ensures run { (script : List ℕ) → IsRun (script_answers script) two_qubits second_first }
    ensures not_plain { (script : List ℕ)
        → IsPlainRun (script_answers script) two_qubits second_first → ⊥ }
{
    derivable_cases();
}
