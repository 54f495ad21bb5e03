//! The parts that take the place of one. Contracts see a `Parts` as the list of its parts.

ghost use Rattle.std.specs.Prelude.{◌≡◌, [], ◌∷◌};

use cqp_parts::Part;
use std::alloc::Global;
use std::marker::Model;

/// Want of memory. The part is as it was.
#[derive(Debug, Drop)]
pub struct Refused {
    pub part: Part,
}

/// The parts in the place of one: the first keeps its number.
#[derive(Debug, Drop)]
pub struct Parts {
    first: Option<Part>,
    others: Vec<Part>,
}

impl Model for Parts {
    ghost use Rattle.std.specs.Prelude.{◌≡◌, ◌++◌, [], List, None};
    ghost use Rattle.std.specs.Option.{option_to_list};
    ghost use Rattle.cqp_parts.specs.declared.part.Part.{Part};

    ghost Value = { List Part };

    ghost view = { λ s. option_to_list s.first ++ s.others.items };

    ghost invariant = { λ s. s.first ≡ None → s.others.items ≡ [] };
}

impl Parts {
    ghost use Rattle.std.specs.Prelude.{◌++◌};
    ghost use Rattle.std.specs.Option.{option_to_list};
    ghost use Rattle.std.specs.Prelude.{None};

    /// One, which takes no memory.
    pub(crate) fn one(alloc: Global, part: Part) -> Parts
        ensures { result ≡ part ∷ [] }
    {
        Parts {
            first: Some(part),
            others: Vec::new(alloc),
        }
    }

    /// The one that keeps the number, if it is there, and the others.
    pub(crate) fn from_pair(first: Option<Part>, others: Vec<Part>) -> Parts
        requires { first ≡ None → others.items ≡ [] }
        ensures { result ≡ option_to_list first ++ others.items }
    {
        Parts { first, others }
    }

    /// The one that keeps the number, and the others.
    pub fn into_pair(self) -> (Option<Part>, Vec<Part>)
        ensures all { self ≡ option_to_list result.0 ++ result.1.items }
        ensures ended { result.0 ≡ None → self ≡ [] }
    {
        let Parts { first, others } = self;
        (first, others)
    }
}
