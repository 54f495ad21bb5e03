//! The desk, which lies under a lock, and the threads that go there with their slots.
ghost use Rattle.std.specs.Prelude.{◌≡◌, ◌==◌, ◌+◌, ℕ, false, [], ◌∷◌, ◌++◌, if◌then◌else◌};
ghost use Rattle.std.specs.Prelude.{Some, None, IfSome, IfOk, IfErr, OnErr};
ghost use Rattle.cqp_book.specs.Keys.{find};
ghost use Rattle.cqp_book.specs.Journal.{IsOpened, cell_of};
ghost use Rattle.cqp_book_uses.specs.Counters.{counters};
ghost use Rattle.cqp_book_uses.specs.declared.machine.Move.TheVariants.{Add, Make};

use crate::machine::{Counters, Move};
use crate::slot::{RunName, Slot};
use cqp_book::{Book, Deal, Events};
use std::alloc::{AllocError, Global};
use std::marker::{Brand, PhantomData};
use std::sync::{Mutex, Wait};
use std::thread::{Threads, join};

/// The book that `K` names, which has room for 100 events.
#[derive(Drop)]
pub struct Desk<K: RunName> {
    pub book: Book<Counters>,
    of: PhantomData<K>,
    ghost named: { (book.identity ≡ K.identity) × (book.opening ≡ K.opening) },
    ghost roomy: { book.reserve ≡ 100 },
}

impl<K: RunName> Desk<K> {
    /// Adds to the counter of the slot, whose value is still what the history gives. The slot
    /// comes back as it was where the sum is too great, or the book is refused or full.
    pub fn add(&mut self, slot: Slot<K>, by: u64) -> Result<Slot<K>, Slot<K>>
        ensures ok { IfOk result (λ s. (s.key ≡ slot.key) × (s.value ≡ slot.value + by)) }
        ensures history { IfOk result
            (λ s. self.new.book.history ≡ self.old.book.history ++ Add slot.key by ∷ []) }
        ensures current { IfOk result
            (λ s. cell_of counters self.old.book slot.key ≡ Some slot.value) }
        ensures err { IfErr result (λ s. (s.key ≡ slot.key) × (s.value ≡ slot.value)) }
        ensures unchanged { OnErr result (self.new.book ≡ self.old.book) }
    {
        let Some(sum) = slot.value.checked_add(by) else {
            return Err(slot);
        };
        if self.book.begin().is_err() || self.book.history().len() >= 100 {
            return Err(slot);
        }
        let Slot {
            key,
            value: _,
            hold,
            of,
        } = slot;
        let deal: &mut Deal<Counters> = &mut self.book;
        deal.add(hold);
        deal.seal(Move::Add(key, by));
        let hold = deal.give(key);
        Ok(Slot {
            key,
            value: sum,
            hold,
            of,
        })
    }
}

/// Adds to a counter in any thread. The slot outlives the lock.
pub fn bump<K: RunName>(
    rt: &impl Wait,
    desk: &Mutex<Desk<K>>,
    slot: Slot<K>,
    by: u64,
) -> Result<Slot<K>, Slot<K>>
    ensures ok { IfOk result (λ s. (s.key ≡ slot.key) × (s.value ≡ slot.value + by)) }
    ensures err { IfErr result (λ s. (s.key ≡ slot.key) × (s.value ≡ slot.value)) }
{
    desk.lock(rt).add(slot, by)
}

/// Takes a counter that is with the book, whose value is known.
fn slot_of<K: RunName>(book: &mut Deal<Counters>, key: u64, value: u64) -> Slot<K>
    requires named { (book.old.identity ≡ K.identity) × (book.old.opening ≡ K.opening) }
    requires open { book.old.refused ≡ false }
    requires there { find book.old.pairs key ≡ Some value }
    ensures slot { (result.key ≡ key) × (result.value ≡ value) }
    ensures pairs { (k : ℕ) → find book.new.pairs k
        ≡ (if k == key then None else find book.old.pairs k) }
    ensures same { book.new ≡ record book.old { pairs = book.new.pairs } }
{
    let hold = book.give(key);
    Slot {
        key,
        value,
        hold,
        of: PhantomData,
    }
}

/// Makes a second counter, and two threads add to one each.
fn work<K: RunName + Send + Sync, R: Threads + Wait + Sync>(
    rt: &R,
    mut book: Book<Counters>,
) -> Option<(u64, u64, Events<Counters>)>
    requires named { (book.identity ≡ K.identity) × (book.opening ≡ K.opening) }
    requires opened { IsOpened counters 0 100 book }
    ensures { IfSome result (λ r. (r.0 ≡ 3) × (r.1 ≡ 4)) }
{
    book.seal(Move::Make);
    let one: Slot<K> = slot_of(&mut book, 0, 0);
    let two: Slot<K> = slot_of(&mut book, 1, 0);
    let desk = Mutex::new(Desk {
        book,
        of: PhantomData,
    });
    let (one, two) = join(
        rt,
        || -> Result<Slot<K>, Slot<K>>
            ensures { IfOk result (λ s. s.value ≡ one.value + 3) }
        { bump(rt, &desk, one, 3) },
        || -> Result<Slot<K>, Slot<K>>
            ensures { IfOk result (λ s. s.value ≡ two.value + 4) }
        { bump(rt, &desk, two, 4) },
    );
    let (one, two) = (one.ok()?, two.ok()?);
    let Desk { book, of: _ } = desk.into_inner();
    Some((one.value, two.value, book.finish()))
}

/// Two threads add 3 and 4 to a counter each, over a book of their own. `None` comes where one
/// of them found no room.
pub fn add_twice<R: Threads + Wait + Sync>(
    rt: &R,
    alloc: Global,
) -> Result<Option<(u64, u64, Events<Counters>)>, AllocError>
    ensures { IfOk result (λ o. IfSome o (λ r. (r.0 ≡ 3) × (r.1 ≡ 4))) }
{
    let book: Book<Counters> = Book::start(alloc, &0, 1, 100)?;
    Ok(work::<Brand, R>(rt, book))
}
