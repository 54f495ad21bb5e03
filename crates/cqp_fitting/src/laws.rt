//! Laws of turns and deeds, for proofs in the crates above. The calls do nothing, and their
//! contracts are the laws.

ghost use Rattle.cqp_fitting.specs.Laws.{CommunicationLaw, EntryLaw, FitsLaw, NoEntryLaw};
ghost use Rattle.cqp_fitting.specs.Laws.{OperandsLaw, StandLaw};

use cqp_meeting::stand_laws;
use cqp_turn_laws::turn_laws;

/// Of a process with no wrong operand exactly the deeds of its turn fit, and so do entries by a
/// part that has the process. The turn has right operands too.
pub fn deed_laws()
    ensures fits { FitsLaw }
    ensures entries { EntryLaw }
    ensures none { NoEntryLaw }
    ensures operands { OperandsLaw }
{
    turn_laws();
}

/// A turn tells how its part stands. In a configuration with no wrong operand a communication fits
/// exactly where the turn of the one part is to send on the channel, and that of the other to
/// receive there.
pub fn communication_laws()
    ensures stands { StandLaw }
    ensures communications { CommunicationLaw }
{
    stand_laws();
}
