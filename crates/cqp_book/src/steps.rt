//! The steps on a book's table, each with what it makes of the seat's view. Only the book's own
//! seat steps; a hold's seat rests until it is taken in.
ghost use Rattle.std.specs.Prelude.{◌≡◌, ℕ, [], length, Some};
ghost use Rattle.cqp_book.specs.Steps.{appended, kept_back, given, joined, Knows, IsReady};
ghost use Rattle.cqp_book.specs.Views.{seen_of, IsBookView, HasKey, IsHoldSeat};

use crate::machine::Machine;
use crate::rule::{Append, BookRule, Give, Look, Said, Take};
use crate::view::View;
use atomic_table::{Seat, Shared, Table};
use std::alloc::Global;

/// A seat at a book of the machine.
pub(crate) type BookSeat<M> = Seat<
    (),
    View<<M as Machine>::Opening, <M as Machine>::Cell, <M as Machine>::Event>,
>;

/// The word of a book, which is the number of its events.
pub(crate) type BookWord<M> = Shared<
    (),
    View<<M as Machine>::Opening, <M as Machine>::Cell, <M as Machine>::Event>,
    <M as Machine>::Opening,
    BookRule<M>,
>;

/// The table of a book.
pub(crate) type BookTable<M> = Table<
    (),
    View<<M as Machine>::Opening, <M as Machine>::Cell, <M as Machine>::Event>,
    <M as Machine>::Opening,
    BookRule<M>,
    Global,
>;

/// Appends the event that `N` says.
pub(crate) fn append<M: Machine, N: Said<M::Event>>(
    word: &BookWord<M>,
    seat: &mut BookSeat<M>,
    event: &M::Event,
)
    requires told { N.said ≡ Some event.now }
    requires table { (seat.old.table_id ≡ word.now.table_id) × (word.now.table_id.words ≡ 1) }
    requires ready { IsReady M.means event.now seat.old.me.0 }
    ensures table { (seat.new.table_id ≡ seat.old.table_id) × (seat.new.id ≡ seat.old.id) }
    ensures view { seat.new.me ≡ (appended M.means (Some event.now) seat.old.me.0, seat.old.me.1) }
{
    word.fetch_add::<Append<M, N>>(seat, 0, 1);
}

/// Reads the word, which tells what the rule says of the book's view.
pub(crate) fn look<M: Machine>(word: &BookWord<M>, seat: &mut BookSeat<M>)
    requires table { (seat.old.table_id ≡ word.now.table_id) × (word.now.table_id.words ≡ 1) }
    ensures table { (seat.new.table_id ≡ seat.old.table_id) × (seat.new.id ≡ seat.old.id) }
    ensures view { seat.new.me ≡ seat.old.me }
    ensures known { (n : ℕ) × Knows M.means n seat.old.me.0 }
{
    word.load::<Look<M>>(seat, 0);
}

/// Splits off a new seat with the key that `N` says.
pub(crate) fn split<M: Machine, N: Said<u64>>(
    word: &BookWord<M>,
    seat: &mut BookSeat<M>,
    key: u64,
) -> BookSeat<M>
    requires told { N.said ≡ Some key }
    requires table { (seat.old.table_id ≡ word.now.table_id) × (word.now.table_id.words ≡ 1) }
    requires there { HasKey key seat.old.me.0 }
    ensures table { (seat.new.table_id ≡ seat.old.table_id) × (seat.new.id ≡ seat.old.id) }
    ensures view { seat.new.me ≡ (kept_back (Some key) seat.old.me.0, seat.old.me.1) }
    ensures hold { (result.table_id ≡ seat.old.table_id)
        × (result.me ≡ (given (Some key) seat.old.me.0, [])) }
{
    word.split_seat::<Give<M, N>>(seat)
}

/// Takes a hold's seat in.
pub(crate) fn join<M: Machine>(word: &BookWord<M>, seat: &mut BookSeat<M>, other: BookSeat<M>)
    requires table { (seat.old.table_id ≡ word.now.table_id) × (word.now.table_id.words ≡ 1) }
    requires book { IsBookView seat.old.me.0 }
    requires hold { (other.table_id ≡ word.now.table_id) × IsHoldSeat other.me }
    ensures table { (seat.new.table_id ≡ seat.old.table_id) × (seat.new.id ≡ seat.old.id) }
    ensures view { seat.new.me ≡ (joined seat.old.me.0 other.me.0, seat.old.me.1) }
{
    word.join_seat::<Take>(seat, other);
}

/// Closes the table, and answers its word.
pub(crate) fn close<M: Machine>(table: BookTable<M>, seat: BookSeat<M>) -> u64
    requires table { seat.table_id ≡ table.shared.table_id }
    requires size { (table.shared.table_id.words ≡ 1) × (table.shared.table_id.slots ≡ 0) }
    requires book { IsBookView seat.me.0 }
    ensures { result ≡ length (seen_of seat.me.0) }
{
    let closed = table.close_with(seat);
    let word = closed.word(0);
    closed.free();
    word
}
