//! Turns at a book, one after the other: what is taken in is given again, or kept for later.
ghost use Rattle.std.specs.Prelude.{◌≡◌, [], ◌∷◌, IfOk, true};
ghost use Rattle.cqp_book_uses.specs.declared.machine.Move.TheVariants.{Add};

use crate::machine::{Counters, Move};
use cqp_book::{Book, Deal, Hold};
use std::alloc::{AllocError, Global};

/// Takes a hold in and gives it again after an event: its cell is the history's.
pub fn give_again(alloc: Global) -> Result<(Book<Counters>, Hold<Counters>), AllocError>
    ensures { IfOk result
        (λ r. (r.0.history ≡ Add 0 1 ∷ []) × (r.1.key ≡ 0) × (r.1.cell ≡ 1)) }
{
    let mut book: Book<Counters> = Book::start(alloc, &0, 1, 2)?;
    let Ok(()) = book.begin() else { unreachable!() };
    let hold = book.give(0);
    let Ok(()) = book.begin() else { unreachable!() };
    let deal: &mut Deal<Counters> = &mut book;
    deal.add(hold);
    deal.seal(Move::Add(0, 1));
    let hold = deal.give(0);
    Ok((book, hold))
}

/// Keeps a key that is taken in until a later turn. Then the book is refused.
pub fn keep_and_refuse(alloc: Global) -> Result<(Book<Counters>, Hold<Counters>), AllocError>
    ensures history { IfOk result (λ r. (r.0.history ≡ Add 0 1 ∷ []) × (r.0.refused ≡ true)) }
    ensures hold { IfOk result (λ r. (r.1.key ≡ 0) × (r.1.cell ≡ 1)) }
{
    let mut book: Book<Counters> = Book::start(alloc, &0, 1, 2)?;
    let Ok(()) = book.begin() else { unreachable!() };
    let hold = book.give(0);
    let Ok(()) = book.begin() else { unreachable!() };
    book.add(hold);
    book.seal(Move::Add(0, 1));
    let Ok(()) = book.begin() else { unreachable!() };
    let hold = book.give(0);
    book.refuse();
    Ok((book, hold))
}
