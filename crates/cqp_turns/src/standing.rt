//! How a part stands, and whether it applies H next. Neither takes memory, and no expression is
//! walked.

ghost use Rattle.std.specs.Prelude.{◌≡◌, ◌↔◌, length, Some, IsSome, IsTrue};
ghost use Rattle.cqp_syntax.specs.Listing.{process_at};
ghost use Rattle.cqp_cells.specs.Lawful.{AppliesH};
ghost use Rattle.cqp_cells.specs.Redex.{exprs_of, redex_of};
ghost use Rattle.cqp_parts.specs.Parts.{process_of_part};
ghost use Rattle.cqp_redexes.specs.Evaluation.{AreRedexes};
ghost use Rattle.cqp_results.specs.Results.{count_of};
ghost use Rattle.cqp_standing.specs.Stands.{IsRedexAt, Stands};
ghost use Rattle.cqp_turns.specs.Stands.{stand_by};
ghost use Rattle.cqp_turns.specs.Turns.{turn_in};
ghost use Rattle.cqp_turns.specs.declared.turn.Turn.{Turn};

use crate::pick::{chan, gate, is_h};
use crate::step::{name_value, value};
use cqp_order::Stand;
use cqp_parts::Part;
use cqp_redexes::Redexes;
use cqp_syntax::{Node, Proc};

/// How a part stands whose process has a turn.
pub fn stand_of(proc: &Proc, redexes: &Redexes, part: &Part) -> Stand
    requires redexes { AreRedexes proc.now redexes.now }
    requires stands { Stands proc.now part.now }
    requires takes { IsSome (turn_in (process_of_part proc.now part.now)) }
    ensures { (t : Turn) → turn_in (process_of_part proc.now part.now) ≡ Some t
        → result ≡ stand_by t }
{
    match redexes.redex(part.node, part.vals.len()) {
        Some(_) => Stand::Alone,
        None => prefix_stand(proc, part),
    }
}

/// How a part stands whose redexes are all reduced.
fn prefix_stand(proc: &Proc, part: &Part) -> Stand
    requires stands { Stands proc.now part.now }
    requires takes { IsSome (turn_in (process_of_part proc.now part.now)) }
    requires done { length part.now.vals
        ≡ count_of (exprs_of (process_at proc.now part.now.node)) }
    ensures { (t : Turn) → turn_in (process_of_part proc.now part.now) ≡ Some t
        → result ≡ stand_by t }
{
    match proc.node(part.node) {
        Node::In { chan: name, .. } => Stand::Receives {
            chan: chan(name_value(&part.env, *name)),
        },
        Node::Out { chan: name, .. } => Stand::Sends {
            chan: chan(name_value(&part.env, *name)),
        },
        _ => Stand::Alone,
    }
}

/// Whether a part's next redex applies H.
pub fn applies_h(proc: &Proc, redexes: &Redexes, part: &Part) -> bool
    requires redexes { AreRedexes proc.now redexes.now }
    requires stands { Stands proc.now part.now }
    ensures { IsTrue result ↔ AppliesH (redex_of (process_of_part proc.now part.now)) }
{
    match redexes.redex(part.node, part.vals.len()) {
        Some(redex) => redex_applies_h(proc, part, redex),
        None => false,
    }
}

/// Whether the next redex, which is node m, applies H.
fn redex_applies_h(proc: &Proc, part: &Part, m: u32) -> bool
    requires stands { Stands proc.now part.now }
    requires redex { IsRedexAt proc.now part.now m }
    ensures { IsTrue result ↔ AppliesH (redex_of (process_of_part proc.now part.now)) }
{
    match proc.node(m) {
        Node::Apply { op, .. } => is_h(gate(value(proc, part, *op, 0))),
        _ => false,
    }
}
