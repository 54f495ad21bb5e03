//! What a thread keeps of a counter, and the name of the book that it is of.
ghost use Rattle.std.specs.Prelude.{◌≡◌};

use crate::machine::Counters;
use cqp_book::Hold;
use std::marker::{Brand, PhantomData};

/// Which book of the counters it is. Each call of a program picks it.
pub trait RunName {
    ghost use Rattle.std.specs.Prelude.{ℕ};
    ghost use Rattle.cqp_book.specs.Journal.{Identity};

    ghost identity: { Identity };

    ghost opening: { ℕ };
}

impl RunName for Brand {
    ghost use Rattle.cqp_book.specs.Journal.{some_identity};

    ghost identity = { some_identity };

    ghost opening = { 0 };
}

/// A counter's number and value, beside the hold that says so.
#[derive(Drop)]
pub struct Slot<K: RunName> {
    pub key: u64,
    pub value: u64,
    pub(crate) hold: Hold<Counters>,
    pub(crate) of: PhantomData<K>,
    ghost named: { (hold.identity ≡ K.identity) × (hold.opening ≡ K.opening) },
    ghost same: { (hold.key ≡ key) × (hold.cell ≡ value) },
}
