//! The events of a finished book. Contracts see them as a list, the first one first.
ghost use Rattle.std.specs.Prelude.{◌≡◌};

use crate::machine::Machine;
use std::marker::Model;

/// The events of a finished book, in the order in which they were sealed.
#[derive(Drop)]
pub struct Events<M: Machine> {
    pub(crate) events: Vec<M::Event>,
}

impl<M: Machine> Model for Events<M> {
    ghost use Rattle.std.specs.Prelude.{List};

    ghost Value = { List M.Event };

    ghost view = { λ e. e.events.items };
}

impl<M: Machine> Events<M> {
    /// Lends the events.
    pub fn as_slice(&self) -> &[M::Event]
        ensures { result.now ≡ self.now }
    {
        self.events.as_slice()
    }

    /// Gives the events up as a `Vec`. It takes no memory.
    pub fn into_vec(self) -> Vec<M::Event>
        ensures { result.items ≡ self }
    {
        let Self { events } = self;
        events
    }
}
