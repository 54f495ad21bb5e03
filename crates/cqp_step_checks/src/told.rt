//! A process with what is told of it beforehand. Contracts see a `Told` as the process.

ghost use Rattle.std.specs.Prelude.{◌≡◌, IfOk};

use cqp_redexes::Redexes;
use cqp_syntax::{NoMemory, Proc};
use cqp_uses::Uses;
use std::alloc::Global;
use std::marker::Model;

/// A process, where its names are used, and its redexes.
#[derive(Drop)]
pub(crate) struct Told {
    pub(crate) proc: Proc,
    pub(crate) uses: Uses,
    pub(crate) redexes: Redexes,
}

impl Model for Told {
    ghost use Rattle.std.specs.Prelude.{◌≡◌};
    ghost use Rattle.cqp_syntax.specs.Listing.{Listing};
    ghost use Rattle.cqp_uses.specs.Users.{IsUses};
    ghost use Rattle.cqp_redexes.specs.Evaluation.{AreRedexes};

    ghost Value = { Listing };

    ghost view = { λ t. t.proc };

    ghost invariant = { λ t. IsUses t.proc t.uses × AreRedexes t.proc t.redexes };
}

impl Told {
    /// What is told of a process.
    pub(crate) fn of(alloc: Global, proc: Proc) -> Result<Told, NoMemory>
        ensures { IfOk result (λ told. told ≡ proc) }
    {
        let uses = Uses::of(alloc, &proc)?;
        let redexes = Redexes::of(alloc, &proc)?;
        Ok(Told {
            proc,
            uses,
            redexes,
        })
    }
}
