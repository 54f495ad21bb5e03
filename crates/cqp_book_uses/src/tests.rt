use crate::{Counters, Move, add_twice, give_again, keep_and_refuse, lose_first, take_both};
use cqp_book::{Book, BookRefused};
use std::test::Fail;

#[test]
fn two_threads_add_to_a_counter_each(rt: HostRuntime) -> Result<(), Fail> {
    let (one, two, events) = add_twice(&rt, rt.alloc())?.ok_or("both add")?;
    assert!(rt; one == 3 && two == 4);
    let events = events.into_vec();
    assert!(rt; events.len() == 3 && events[0] == Move::Make);
    assert!(rt; events.contains(&Move::Add(0, 3)) && events.contains(&Move::Add(1, 4)));
    Ok(())
}

#[test]
fn a_counter_is_added_to_though_another_was_lost(rt: HostRuntime) -> Result<(), Fail> {
    let book = lose_first(rt.alloc())?;
    assert!(rt; *book.front() == 2 && book.begin().is_ok());
    assert!(rt; book.history() == [Move::Make, Move::Add(1, 5)].as_slice());
    Ok(())
}

#[test]
fn two_holds_are_taken_in(rt: HostRuntime) -> Result<(), Fail> {
    let mut book: Book<Counters> = Book::start(rt.alloc(), &0, 1, 1)?;
    book.seal(Move::Make);
    let one = book.give(0);
    let two = book.give(1);
    take_both(&mut book, one, two);
    assert!(rt; book.history() == [Move::Make].as_slice());
    Ok(())
}

#[test]
fn an_added_hold_is_given_again_after_the_event(rt: HostRuntime) -> Result<(), Fail> {
    let (book, _hold) = give_again(rt.alloc())?;
    assert!(rt; book.history() == [Move::Add(0, 1)].as_slice() && *book.front() == 1);
    assert!(rt; !book.refused() && book.begin().is_ok());
    let events = book.finish();
    assert!(rt; events.as_slice() == [Move::Add(0, 1)].as_slice());
    assert!(rt; events.into_vec().as_slice() == [Move::Add(0, 1)].as_slice());
    Ok(())
}

#[test]
fn a_refused_book_keeps_its_history(rt: HostRuntime) -> Result<(), Fail> {
    let (book, _hold) = keep_and_refuse(rt.alloc())?;
    assert!(rt; book.refused() && book.begin() == Err(BookRefused));
    assert!(rt; book.history() == [Move::Add(0, 1)].as_slice());
    Ok(())
}
