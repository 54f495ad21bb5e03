//! The machine of cells, over which a book keeps its journal.

use cqp_book::Machine;
use cqp_machine::{Cell, Event, Front, Stop};
use cqp_syntax::Proc;
use cqp_trace::Deed;

/// The machine of cells. Its opening is a process, and its front, cells and events are `Front`,
/// `Cell` and `Event`.
pub struct Cells;

impl Machine for Cells {
    ghost use Rattle.cqp_machine.specs.Machine.{factored};
    ghost use Rattle.cqp_fresh.proofs.NewLaw.{factored_lawful};

    type Opening = Proc;

    type Front = Front;

    type Cell = Cell;

    type Event = Event;

    ghost means = { factored };

    ghost lawful = { factored_lawful };

    fn advance(front: &mut Front, event: &Event) {
        match event {
            Event::Step {
                entry,
                made,
                gone,
                woke,
                level,
                ..
            } => {
                front.parts += *made;
                front.ready = front.ready + *made + *woke - *gone;
                front.level = *level;
                match &entry.deed {
                    Deed::Qbit { .. } => front.qubits += 1,
                    Deed::New { .. } => front.chans += 1,
                    Deed::Measure { .. } => front.turns += 1,
                    _ => {}
                }
            }
            Event::Park { .. } => front.ready -= 1,
            Event::Halt { part } => front.stopped = Stop::At { part: *part },
            _ => {}
        }
    }
}
