//! Laws of results. The call does nothing, and its contract is the laws.

ghost use Rattle.cqp_results.specs.Laws.{NextLaw, ValuesLaw};

/// Of expressions in which no name is left: while results are fewer than redexes, the next redex is
/// the one of their number, with the values of its operands; once they are as many, the expressions
/// are the values of their operands.
pub fn result_laws()
    ensures next { NextLaw }
    ensures values { ValuesLaw }
{}
