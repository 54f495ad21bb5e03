//! Laws over the commands. The call does nothing, and its contract is the law.

ghost use Rattle.cqp_tool.specs.Printed.{PrintedLaw};

use cqp_engine::replay_laws;
use cqp_expand::one_least_fault;
use cqp_grammar::{one_reading, outcomes};
use cqp_trace::{one_refusal, one_text};

/// What `run` prints for a text `replay` accepts behind that text: no refusal is possible there, be
/// it of the text, of a limit or of the trace.
pub fn printed_laws()
    ensures { PrintedLaw }
{
    one_reading();
    outcomes();
    one_least_fault();
    one_text();
    one_refusal();
    replay_laws();
}
