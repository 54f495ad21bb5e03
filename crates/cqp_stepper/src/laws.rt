//! Laws of runs of a checked process, from those of the crates below. The calls do nothing.

ghost use Rattle.cqp_stepper.specs.Here.{BackLaw, ChanLaw, HereLaw, RoomLaw};
ghost use Rattle.cqp_events.specs.Laws.{JoinLaw, MeetingLaw, OpeningLaw, OwnLaw, SplitLaw};
ghost use Rattle.cqp_fitting.specs.Laws.{EntryLaw, FitsLaw, NoEntryLaw, OperandsLaw, StandLaw};
ghost use Rattle.cqp_meeting.specs.Laws.{FitLaw, LeastLaw, PartnerLaw, StuckLaw};
ghost use Rattle.cqp_meeting.specs.Laws.{AloneLaw as StandsAloneLaw, OwnLaw as FitsAloneLaw};
ghost use Rattle.cqp_telling.specs.Laws.{GroupLimitLaw, LeftLaw, OddsLaw, OutcomeLaw, WeightLaw};
ghost use Rattle.cqp_turn_laws.specs.Laws.{MovesLaw, SomeQubitsLaw};
ghost use Rattle.cqp_stepper.specs.Gathering.{AloneLaw, FewLaw};
ghost use Rattle.cqp_factored.specs.GroupLaws.{GroupLevelLaw, PlacesLaw};
ghost use Rattle.cqp_groups.specs.RunLaws.{DueLaw, ExponentLaw, GateLaw, GrowLaw, MeasureLaw};
ghost use Rattle.cqp_groups.specs.RunLaws.{HeldLaw, NormLaw, OpenLaw, PairLaw, SmallLaw};
ghost use Rattle.cqp_groups.specs.RunLaws.{StateLaw, SumLaw};

use cqp_cells::path_laws as cell_laws;
use cqp_events::settled_laws;
use cqp_factored::{group_laws as factor_laws, level_laws, path_laws};
use cqp_fitting::{communication_laws, deed_laws};
use cqp_groups::{call_laws, run_laws, sum_laws};
use cqp_meeting::{least_laws, stand_laws};
use cqp_paths::safe_laws;
use cqp_short::short_laws;
use cqp_stands::stands_laws;
use cqp_steps::making_laws;
use cqp_telling::{odds_laws, run_laws as told_laws};
use cqp_turn_laws::turn_laws;

/// Each run leads to one configuration, which is safe, and each of its parts has a turn.
pub(crate) fn here_laws()
    ensures { HereLaw }
{
    path_laws();
    safe_laws();
    stands_laws();
    stand_laws();
    turn_laws();
}

/// So many places as the process has nodes are enough for the parts.
pub(crate) fn room_laws()
    ensures { RoomLaw }
{
    short_laws();
}

/// What a part that goes on is asked, and what it leaves.
pub(crate) fn make_laws()
    ensures here { HereLaw }
    ensures room { RoomLaw }
    ensures own { OwnLaw }
    ensures grow { GrowLaw }
    ensures gate { GateLaw }
    ensures measure { MeasureLaw }
    ensures levels { SumLaw }
    ensures groups { GroupLevelLaw }
{
    here_laws();
    room_laws();
    settled_laws();
    call_laws();
    sum_laws();
    level_laws();
}

/// What is asked where groups are split and joined, and what that leaves.
pub(crate) fn group_laws()
    ensures few { FewLaw }
    ensures alone { AloneLaw }
    ensures join { JoinLaw }
    ensures split { SplitLaw }
    ensures pair { PairLaw }
    ensures due { DueLaw }
{
    making_laws();
    path_laws();
    run_laws();
    settled_laws();
    call_laws();
}

/// What two parts that communicate are asked, and what they leave.
pub(crate) fn meeting_laws()
    ensures here { HereLaw }
    ensures room { RoomLaw }
    ensures chans { ChanLaw }
    ensures meeting { MeetingLaw }
    ensures fits { FitLaw }
{
    here_laws();
    room_laws();
    settled_laws();
    stand_laws();
}

/// What is asked where an entry is tried: that it leads on, or nowhere, as the cells tell.
pub(crate) fn try_laws()
    ensures here { HereLaw }
    ensures few { FewLaw }
    ensures levels { SumLaw }
    ensures limit { GroupLimitLaw }
    ensures outcome { OutcomeLaw }
    ensures fits { FitLaw }
{
    here_laws();
    group_laws();
    make_laws();
    told_laws();
    odds_laws();
    stand_laws();
}

/// What is asked of a part that stands alone.
pub(crate) fn own_laws()
    ensures alone { StandsAloneLaw }
    ensures own { FitsAloneLaw }
    ensures moves { MovesLaw }
    ensures none { NoEntryLaw }
    ensures entries { EntryLaw }
    ensures some { SomeQubitsLaw }
{
    stand_laws();
    turn_laws();
    deed_laws();
}

/// What the opening of a run asks.
pub(crate) fn opening_laws()
    ensures settled { OpeningLaw }
    ensures room { RoomLaw }
    ensures groups { OpenLaw }
{
    room_laws();
    settled_laws();
    run_laws();
}

/// What the cells of a run tell of the configuration to which its entries lead.
pub(crate) fn reading_laws()
    ensures here { HereLaw }
    ensures back { BackLaw }
    ensures few { FewLaw }
    ensures left { LeftLaw }
    ensures limit { GroupLimitLaw }
    ensures weight { WeightLaw }
    ensures norms { NormLaw }
    ensures exponents { ExponentLaw }
{
    here_laws();
    cell_laws();
    group_laws();
    told_laws();
    sum_laws();
}

/// Which part is the least that takes part in a reduction, and what it does next.
pub(crate) fn next_laws()
    ensures stuck { StuckLaw }
    ensures least { LeastLaw }
    ensures partner { PartnerLaw }
    ensures fits { FitsLaw }
    ensures operands { OperandsLaw }
    ensures stands { StandLaw }
{
    least_laws();
    deed_laws();
    communication_laws();
}

/// What a measurement in a group tells, and what it asks.
pub(crate) fn measuring_laws()
    ensures odds { OddsLaw }
    ensures some { SomeQubitsLaw }
    ensures places { PlacesLaw }
{
    factor_laws();
    odds_laws();
    turn_laws();
}

/// What the groups of a run tell of its factors and of its weight.
pub(crate) fn told_factors()
    ensures state { StateLaw }
    ensures held { HeldLaw }
    ensures levels { SumLaw }
    ensures small { SmallLaw }
{
    run_laws();
    sum_laws();
}
