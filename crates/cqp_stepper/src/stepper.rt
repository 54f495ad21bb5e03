//! The run of a checked process in one place.

ghost use Rattle.std.specs.Prelude.{◌≡◌, ◌<◌, [], ◌∷◌, ◌++◌, if◌then◌else◌, IfOk, Some};
ghost use Rattle.std.specs.Vec.{vec_capacity, vec_len};
ghost use Rattle.cqp_stepper.specs.Runs as runs;
ghost use Rattle.cqp_stepper.specs.Runs.{opened, progress_of};

use crate::cells::Cells;
use crate::laws::{measuring_laws, next_laws, reading_laws};
use crate::tables::Tables;
use cqp_engine::{Engine, Fit, Upcoming};
use cqp_ring::Weight;
use cqp_syntax::{Names, NoMemory};
use cqp_trace::Entry;
use cqp_types::Typed;
use cqp_vector::Odds;
use std::alloc::{AllocError, Global};
use std::marker::Model;

/// A run of a checked process as far as it has come.
#[derive(Drop)]
pub struct Stepper<'p> {
    pub(crate) tables: Tables<'p>,
    pub(crate) cells: Cells,
    pub(crate) entries: Vec<Entry>,
}

impl<'p> Model for Stepper<'p> {
    ghost use Rattle.cqp_stepper.specs.Kept.{IsKept};
    ghost use Rattle.cqp_stepper.specs.Runs.{Run};

    ghost Value = { Run };

    ghost view = { λ s. record { process = s.tables; entries = s.entries.items } };

    ghost invariant = { λ s. IsKept s.tables s.entries.items s.cells };
}

impl<'p> Stepper<'p> {
    /// A run of which nothing was made yet. It takes time that grows with the process's nodes.
    pub fn start(alloc: Global, typed: &'p Typed) -> Result<Stepper<'p>, NoMemory>
        ensures { IfOk result (λ stepper. stepper ≡ opened typed.now) }
    {
        let tables = Tables::of(alloc, typed)?;
        let cells = Cells::opening(&tables, alloc)?;
        let entries = Vec::new(alloc);
        Ok(Stepper {
            tables,
            cells,
            entries,
        })
    }
}

impl<'p> Engine for Stepper<'p> {
    ghost progress = { λ s. progress_of s };

    fn least(&mut self, _alloc: Global) -> Result<Option<u32>, NoMemory> {
        reading_laws();
        next_laws();
        self.cells.settle(&self.tables)?;
        Ok(self.cells.least_part())
    }

    fn turn(&self) -> u64 {
        self.cells.counts.turns
    }

    fn left(&self) -> u32 {
        reading_laws();
        self.cells.left()
    }

    fn upcoming(&mut self, alloc: Global, part: u32) -> Result<Upcoming, NoMemory> {
        reading_laws();
        next_laws();
        self.tables.checked();
        self.cells.settle(&self.tables)?;
        found(self.cells.next_of(&self.tables, alloc, part)?)
    }

    fn odds(&mut self, alloc: Global, _part: u32, qubits: &Names) -> Result<Odds, NoMemory> {
        reading_laws();
        measuring_laws();
        let qubits = qubits.as_slice();
        let group = self.cells.gather(&self.tables, alloc, qubits)?;
        self.cells.groups.odds(alloc, group, qubits)
    }

    fn step(&mut self, alloc: Global, entry: &Entry) -> Result<Fit, NoMemory> {
        reading_laws();
        let copy = copied(entry)?;
        self.entries.reserve(1)?;
        let tried = self.cells.try_entry(&self.tables, alloc, entry);
        keep_if(&mut self.entries, copy, is_made(&tried));
        tried
    }

    fn make(&mut self, alloc: Global, entry: Entry) -> Result<Fit, NoMemory> {
        reading_laws();
        self.entries.reserve(1)?;
        let tried = self.cells.make_entry(&self.tables, alloc, &entry);
        keep_if(&mut self.entries, entry, is_made(&tried));
        tried
    }

    fn is_before_h(&self, part: u32) -> bool {
        reading_laws();
        match self.cells.slots.get(part) {
            Some(part) => self.tables.applies_h(part),
            None => false,
        }
    }

    fn is_at_limit(&self) -> bool {
        reading_laws();
        self.cells.has_reached_limit(&self.tables)
    }

    fn weight(&self) -> Weight {
        reading_laws();
        let top = self.cells.groups.norm();
        let below = self.cells.groups.exponents();
        Weight { top, below }.least()
    }
}

// The entry once more.
fn copied(entry: &Entry) -> Result<Entry, NoMemory>
    ensures { IfOk result (λ copy. copy ≡ entry.now) }
{
    entry.clone()
}

// Whether the entry that was tried was made.
fn is_made(tried: &Result<Fit, NoMemory>) -> bool
    ensures { result ≡ runs.is_made tried.now }
{
    match tried {
        Ok(Fit::Made) => true,
        _ => false,
    }
}

// One entry more, where it was made. There is room for it.
fn keep_if(entries: &mut Vec<Entry>, entry: Entry, made: bool)
    requires { vec_len entries.old < vec_capacity entries.old }
    ensures { entries.new.items
        ≡ (if made then entries.old.items ++ entry ∷ [] else entries.old.items) }
{
    if made {
        entries.push_reserved(entry);
    }
}

// What is there. The least part always does something next, so no error comes of it.
fn found(next: Option<Upcoming>) -> Result<Upcoming, NoMemory>
    ensures { IfOk result (λ there. next ≡ Some there) }
{
    next.ok_or(AllocError)
}
