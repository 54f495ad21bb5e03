//! Holds. Contracts see a hold as its book's identity and opening, its key and its cell.
ghost use Rattle.std.specs.Prelude.{◌≡◌, []};
ghost use Rattle.cqp_book.specs.Inside.{IsHold, hold_prop};
ghost use Rattle.cqp_book.specs.declared.view.View.TheVariants.{OfHold};

use crate::machine::Machine;
use crate::steps::BookSeat;
use std::marker::Model;

/// The one right to a key of a book, whose cell it knows.
///
/// It takes no bytes, so code that needs the key's number keeps it beside the hold. It may be
/// moved to any thread. Once it is dropped, no hold of its key is ever given again.
#[derive(Drop)]
pub struct Hold<M: Machine> {
    pub(crate) seat: BookSeat<M>,
    ghost is_hold: { IsHold seat.me.0 } by { hold_prop seat.me.0 },
}

impl<M: Machine> Model for Hold<M> {
    ghost use Rattle.std.specs.Prelude.{◌≡◌, []};
    ghost use Rattle.cqp_book.specs.Journal.{Holding};

    ghost Value = { Holding M.Opening M.Cell };

    ghost use Rattle.cqp_book.specs.Inside.{holding};

    ghost view = { λ h. holding h.seat.table_id h.seat.me.0 h.is_hold };

    ghost invariant = { λ h. h.seat.me.1 ≡ [] };
}

impl<M: Machine> Hold<M> {
    /// The seat of the hold.
    pub(crate) fn into_seat(self) -> BookSeat<M>
        ensures table { result.table_id ≡ self.identity }
        ensures view { result.me ≡ (OfHold self.opening self.key self.cell, []) }
    {
        let Hold { seat } = self;
        seat
    }
}
