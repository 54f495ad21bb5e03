use std::collections::LinkedList;

/// What a seat of a book's table knows. No value of it is made.
pub enum View<O, C, E> {
    /// Nothing: its pair was taken in.
    Spent,
    /// The book's: the opening, the opening that the hold taken in last had (its own, if none
    /// was), the events sealed, and the pairs with the book.
    OfBook(O, O, LinkedList<E>, LinkedList<(u64, C)>),
    /// A hold's: the opening, the key and its cell.
    OfHold(O, u64, C),
}
