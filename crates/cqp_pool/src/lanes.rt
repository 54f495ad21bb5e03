//! The lanes of a pool. Contracts see them as the list of their lanes' states.
ghost use Rattle.std.specs.Prelude.{◌≡◌};
ghost use Rattle.std.specs.Borrow.{sem};

use crate::gather::PoolParts;
use crate::lane::Lane;
use crate::numbered::Numbered;
use std::marker::Model;

/// The lanes of a pool, in the order of their numbers unless they were exchanged.
#[derive(Drop)]
pub struct Lanes<T: Numbered> {
    lanes: Vec<Lane<T>>,
    // Room for what the lanes leave behind.
    room: PoolParts<T>,
}

impl<T: Numbered> Model for Lanes<T> {
    ghost use Rattle.std.specs.Prelude.{◌<◌, List, vec_len};
    ghost use Rattle.cqp_pool.specs.Pools.{LaneState};
    ghost use Rattle.cqp_pool.specs.Rooms.{IsRoom};

    ghost Value = { List (LaneState T) };

    ghost view = { λ s. s.lanes.items };

    ghost invariant = { λ s. (0 < vec_len s.lanes) × IsRoom s.room (vec_len s.lanes) };
}

impl<T: Numbered> Lanes<T> {
    ghost use Rattle.std.specs.Prelude.{◌<◌, vec_len};
    ghost use Rattle.cqp_pool.specs.Lent.{LendsLanes};
    ghost use Rattle.cqp_pool.specs.Rooms.{IsRoom};

    pub(crate) fn new(lanes: Vec<Lane<T>>, room: PoolParts<T>) -> Lanes<T>
        requires some { 0 < vec_len lanes }
        requires room { IsRoom room (vec_len lanes) }
        ensures { result ≡ lanes.items }
    {
        Lanes { lanes, room }
    }

    /// Lends the lanes. There are as many of them afterwards.
    pub fn as_mut_slice(&mut self) -> &mut [Lane<T>]
        ensures* writes_back { sem 𝓛 (LendsLanes T.row T.Numbered self.entry result) }
        ensures value { result.now ≡ self.old }
    {
        self.lanes.as_mut_slice()
    }

    /// The lanes, and the empty lists for what they leave behind, which have room for it.
    pub(crate) fn into_parts(self) -> (Vec<Lane<T>>, PoolParts<T>)
        ensures lanes { result.0.items ≡ self }
        ensures some { 0 < vec_len result.0 }
        ensures room { IsRoom result.1 (vec_len result.0) }
    {
        let Lanes { lanes, room } = self;
        (lanes, room)
    }
}
