//! The machine of the counters. Contracts see what it means as `counters`.

use cqp_book::Machine;

/// An event of the counters.
#[derive(Clone, Copy, PartialEq, Eq, Debug)]
pub enum Move {
    /// Adds the second number to the counter of the first.
    Add(u64, u64),
    /// Makes the next counter, which begins at 0.
    Make,
}

/// Counters at the keys 0, 1, 2 and so on. The first begins at the opening, and the front is how
/// many there are.
pub struct Counters;

impl Machine for Counters {
    ghost use Rattle.cqp_book_uses.specs.Counters.{counters, counters_lawful};

    type Opening = u64;

    type Front = u64;

    type Cell = u64;

    type Event = Move;

    ghost means = { counters };

    ghost lawful = { counters_lawful };

    fn advance(front: &mut u64, event: &Move) {
        match event {
            Move::Add(_, _) => {}
            Move::Make => *front += 1,
        }
    }
}
