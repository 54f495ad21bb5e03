//! Laws of expansion. Each call does nothing, and its contract is the law.

ghost use Rattle.std.specs.Prelude.{◌≡◌, ◌⊎◌, []};
ghost use Rattle.cqp_syntax.specs.Listing.{Listing};
ghost use Rattle.cqp_grammar.specs.Trees.{ProgramTree};
ghost use Rattle.cqp_expand.specs.declared.fault.ScopeFault.{ScopeFault};
ghost use Rattle.cqp_expand.specs.Expansion.{expansion, expansion_offsets};
ghost use Rattle.cqp_expand.specs.Faults.{scope_faults};
ghost use Rattle.cqp_expand.specs.Least.{IsLeast};
ghost use Rattle.cqp_expand.specs.Closed.{IsClosed, IsSame};
ghost use Rattle.cqp_expand.specs.Outcomes.{IsExpanded};

/// A program without scope faults stands for a process, and for one alone: two listings that it
/// expands to differ in the numbers of types at most.
pub fn one_expansion()
    ensures some { (t : ProgramTree) → scope_faults t ≡ []
        → IsClosed (expansion t) (expansion_offsets t) }
    ensures one { (t : ProgramTree) (k l : Listing) → IsExpanded t k → IsExpanded t l → IsSame k l }
{}

/// A program has no scope faults, or one of them is the least. It has one least fault at most.
pub fn one_least_fault()
    ensures some { (t : ProgramTree) → scope_faults t ≡ []
        ⊎ ((f : ScopeFault) × IsLeast (scope_faults t) f) }
    ensures one { (t : ProgramTree) (f g : ScopeFault) → IsLeast (scope_faults t) f
        → IsLeast (scope_faults t) g → f ≡ g }
    ensures none { (t : ProgramTree) (f : ScopeFault) → scope_faults t ≡ []
        → IsLeast (scope_faults t) f → ⊥ }
{}
