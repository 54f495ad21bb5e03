//! The book, which is the same thing as a deal. Contracts see it as a `Journal`, and read of its
//! pairs what is found at a key.
ghost use Rattle.std.specs.Prelude.{◌≡◌, ◌==◌, ℕ, true, false, [], ◌∷◌, ◌++◌, Some, None, IsSome};
ghost use Rattle.std.specs.Prelude.{IfOk, OnOk, OnErr, if◌then◌else◌};
ghost use Rattle.cqp_book.specs.Keys.{find};
ghost use Rattle.cqp_book.specs.Run.{IsRun, AreCurrent, MayAdvance};
ghost use Rattle.cqp_book.specs.Journal.{front_of, cell_of, found_after};
ghost use Rattle.cqp_book.specs.Journal.{IsOpened, IsHoldOf, MaySeal, KeepsAway};

use crate::events::Events;
use crate::hold::Hold;
use crate::machine::Machine;
use crate::steps;
use crate::steps::{BookSeat, BookTable};
use atomic_table::Table;
use std::alloc::{AllocError, Global};
use std::marker::{Brand, Model};

/// Want of memory.
pub type NoMemory = AllocError;

/// The answer of a book that was refused.
#[derive(Clone, Copy, PartialEq, Eq, Debug)]
pub struct BookRefused;

/// One history of a machine's events, with the cells that aren't out with a hold.
///
/// A cell is known to contracts alone, so a book keeps the events, the front after them, and a
/// word that counts them.
#[derive(Drop)]
pub struct Book<M: Machine> {
    table: BookTable<M>,
    seat: BookSeat<M>,
    front: Box<M::Front>,
    events: Vec<M::Event>,
    reserve: u32,
    refused: bool,
}

/// A book at which a turn was begun.
pub type Deal<M> = Book<M>;

impl<M: Machine> Model for Book<M> {
    ghost use Rattle.std.specs.Prelude.{vec_capacity};
    ghost use Rattle.cqp_book.specs.Journal.{Journal};

    ghost Value = { Journal M.Opening M.Cell M.Event };

    ghost use Rattle.cqp_book.specs.Views.{pairs_of};
    ghost use Rattle.cqp_book.specs.Inside.{IsBook};

    ghost view = { λ b. record {
      identity = b.table.shared.table_id;
      opening = b.table.shared.key;
      history = b.events.items;
      pairs = pairs_of b.seat.me.0;
      reserve = b.reserve;
      refused = b.refused;
    } };

    ghost invariant = { λ b. IsBook M.means b.table.shared.table_id b.table.shared.key
        b.seat.table_id b.seat.me b.front.value b.events.items (vec_capacity b.events) b.reserve };
}

impl<M: Machine> Book<M> {
    /// Starts a book with no event, and takes room for `reserve` of them at once. Every cell of
    /// the opening is with it. The opening is kept by contracts alone.
    pub fn start(
        alloc: Global,
        opening: &M::Opening,
        front: M::Front,
        reserve: u32,
    ) -> Result<Book<M>, NoMemory>
        requires { front ≡ M.means.front opening.now }
        ensures { IfOk result (IsOpened M.means opening.now reserve) }
    {
        let front = Box::new(alloc, front)?;
        let events = Vec::with_capacity(alloc, reserve as usize)?;
        let (table, seat) = Table::of_words(alloc, &[0], opening)?;
        Ok(Book {
            table,
            seat,
            front,
            events,
            reserve,
            refused: false,
        })
    }

    /// Begins a turn, unless the book was refused.
    pub fn begin(&self) -> Result<(), BookRefused>
        ensures ok { OnOk result (self.now.refused ≡ false) }
        ensures err { OnErr result (self.now.refused ≡ true) }
    {
        if self.refused {
            Err(BookRefused)
        } else {
            Ok(())
        }
    }

    /// Refuses the book from now on. Its history stands.
    pub fn refuse(&mut self)
        ensures { self.new ≡ record self.old { refused = true } }
    {
        self.refused = true;
    }

    /// Takes a hold in. Its opening turns out to be the book's, its cell to be the history's,
    /// whatever was sealed since it was given, and its key not to have been with the book.
    pub fn add(&mut self, hold: Hold<M>)
        requires open { self.old.refused ≡ false }
        requires mine { hold.identity ≡ self.old.identity }
        ensures opening { hold.opening ≡ self.old.opening }
        ensures current { cell_of M.means self.old hold.key ≡ Some hold.cell }
        ensures apart { find self.old.pairs hold.key ≡ None }
        ensures pairs { (k : ℕ) → find self.new.pairs k
            ≡ (if k == hold.key then Some hold.cell else find self.old.pairs k) }
        ensures same { self.new ≡ record self.old { pairs = self.new.pairs } }
    {
        let table = &self.table;
        steps::join(&table.shared, &mut self.seat, hold.into_seat());
        steps::look(&table.shared, &mut self.seat);
    }

    /// Seals an event at the end of the history. The cells that it ends are no longer with the
    /// book, and those that it makes are.
    pub fn seal(&mut self, event: M::Event)
        requires open { self.old.refused ≡ false }
        requires may { MaySeal M.means self.old event }
        ensures pairs { (k : ℕ) → find self.new.pairs k ≡ found_after M.means self.old event k }
        ensures same { self.new
            ≡ record self.old { history = self.old.history ++ event ∷ []; pairs = self.new.pairs } }
        ensures run { IsRun M.means self.new.opening self.new.history }
        ensures away { KeepsAway M.means self.old self.new }
    {
        let table = &self.table;
        steps::append::<M, Brand>(&table.shared, &mut self.seat, &event);
        move_on::<M>(&mut self.front, &event);
        self.events.push_reserved(event);
    }

    /// Gives the hold of a key that is with the book.
    pub fn give(&mut self, key: u64) -> Hold<M>
        requires open { self.old.refused ≡ false }
        requires there { IsSome (find self.old.pairs key) }
        ensures hold { IsHoldOf M.means self.old result }
        ensures cell { (result.key ≡ key) × (find self.old.pairs key ≡ Some result.cell) }
        ensures pairs { (k : ℕ) → find self.new.pairs k
            ≡ (if k == key then None else find self.old.pairs k) }
        ensures same { self.new ≡ record self.old { pairs = self.new.pairs } }
    {
        let table = &self.table;
        let seat = steps::split::<M, Brand>(&table.shared, &mut self.seat, key);
        Hold { seat }
    }

    /// Lends the front after the history.
    pub fn front(&self) -> &M::Front
        ensures { result.now ≡ front_of M.means self.now }
    {
        &*self.front
    }

    /// Whether the book was refused.
    pub fn refused(&self) -> bool
        ensures { result ≡ self.now.refused }
    {
        self.refused
    }

    /// Lends the events sealed, the first one first. They are a run from the opening, and the
    /// cells with the book are those that the run gives.
    pub fn history(&self) -> &[M::Event]
        ensures history { result.now ≡ self.now.history }
        ensures run { IsRun M.means self.now.opening self.now.history }
        ensures current { AreCurrent M.means self.now.opening self.now.history self.now.pairs }
    {
        self.events.as_slice()
    }

    /// Ends the book, and gives its events up.
    pub fn finish(self) -> Events<M>
        ensures history { result ≡ self.history }
        ensures run { IsRun M.means self.opening self.history }
    {
        let Self {
            table,
            seat,
            front: _,
            events,
            reserve: _,
            refused: _,
        } = self;
        let word = steps::close(table, seat);
        let count = events.len() as u64;
        prove!(word == count);
        Events { events }
    }
}

/// Moves the front on in its box.
fn move_on<M: Machine>(front: &mut Box<M::Front>, event: &M::Event)
    requires { MayAdvance M.means front.old.value event.now }
    ensures { front.new.value ≡ M.means.next front.old.value event.now }
{
    M::advance(&mut **front, event);
}
