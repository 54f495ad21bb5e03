ghost use Rattle.std.specs.Prelude.{◌≡◌, [], ◌∷◌, Some, None, IfOk};
ghost use Rattle.cqp_book.specs.Keys.{find};
ghost use Rattle.cqp_book.specs.Journal.{cell_of};
ghost use Rattle.cqp_book_uses.specs.Counters.{counters};
ghost use Rattle.cqp_book_uses.specs.declared.machine.Move.TheVariants.{Add, Make};

use crate::machine::{Counters, Move};
use cqp_book::Book;
use std::alloc::{AllocError, Global};

/// Drops the hold of the first counter, and adds to a second. The first counter is live, and its
/// key isn't with the book, so no call can give it.
pub fn lose_first(alloc: Global) -> Result<Book<Counters>, AllocError>
    ensures history { IfOk result (λ b. b.history ≡ Make ∷ Add 1 5 ∷ []) }
    ensures lost { IfOk result (λ b. (find b.pairs 0 ≡ None) × (cell_of counters b 0 ≡ Some 7)) }
    ensures kept { IfOk result (λ b. find b.pairs 1 ≡ Some 5) }
{
    let mut book: Book<Counters> = Book::start(alloc, &7, 1, 2)?;
    drop(book.give(0));
    book.seal(Move::Make);
    book.seal(Move::Add(1, 5));
    Ok(book)
}
