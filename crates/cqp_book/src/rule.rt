//! The rule of a book's table, and what its steps make of the views. All of it is for proofs.

use crate::machine::Machine;
use crate::view::View;
use atomic_table::{Join, Play, Split, TableRule};
use std::marker::{Brand, PhantomData};

/// The rule of a book of the machine, whose table's key is the opening.
pub(crate) struct BookRule<M> {
    of: PhantomData<M>,
}

impl<M: Machine> TableRule<(), View<M::Opening, M::Cell, M::Event>, M::Opening> for BookRule<M> {
    ghost use Rattle.cqp_book.specs.Rule.{Kept, at_start};

    ghost holds = { λ o s. Kept M.means o s };

    ghost first = { λ o. at_start M.means o };
}

/// What a step is told by the proof of its caller: an event, or a key.
pub(crate) trait Said<T> {
    ghost use Rattle.std.specs.Prelude.{Option};

    ghost said: { Option T };
}

impl<T> Said<T> for Brand {
    ghost use Rattle.std.specs.Prelude.{None};

    ghost said = { None };
}

/// The book's seat appends the event that it is told.
pub(crate) struct Append<M, N> {
    of: PhantomData<(M, N)>,
}

impl<M: Machine, N: Said<M::Event>> Play<(), View<M::Opening, M::Cell, M::Event>> for Append<M, N> {
    ghost use Rattle.cqp_book.specs.Steps.{Appends};

    ghost then = { Appends M.means N.said };
}

/// The book's seat reads the word.
pub(crate) struct Look<M> {
    of: PhantomData<M>,
}

impl<M: Machine> Play<(), View<M::Opening, M::Cell, M::Event>> for Look<M> {
    ghost use Rattle.cqp_book.specs.Steps.{Looks};

    ghost then = { Looks M.means };
}

/// The pair of the key that is told goes from the book's seat to a new one.
pub(crate) struct Give<M, N> {
    of: PhantomData<(M, N)>,
}

impl<M: Machine, N: Said<u64>> Split<View<M::Opening, M::Cell, M::Event>> for Give<M, N> {
    ghost use Rattle.cqp_book.specs.Steps.{kept_back, given};

    ghost left = { λ v. kept_back N.said v };

    ghost right = { λ v. given N.said v };
}

/// The book's seat takes in the pair of a hold's, which is spent.
pub(crate) struct Take;

impl<O, C, E> Join<View<O, C, E>> for Take {
    ghost use Rattle.cqp_book.specs.declared.view.View.TheVariants.{Spent};
    ghost use Rattle.cqp_book.specs.Steps.{joined};

    ghost both = { λ v w. joined v w };

    ghost spent = { Spent };
}
