//! What a part that stands alone does next.

ghost use Rattle.std.specs.Prelude.{◌≡◌, ◌↔◌, ◌<◌, ◌^◌, length, IfOk, IsTrue};
ghost use Rattle.cqp_stepper.specs.Kept.{IsAllSeen, IsRunOf};
ghost use Rattle.cqp_stepper.specs.Own as words;
ghost use Rattle.cqp_stepper.specs.Own.{HasOutcomeBits, HasOwnTurn, IsDeedOfTurn, deed_by};
ghost use Rattle.cqp_stepper.specs.Steps.{made_in};

use crate::cells::Cells;
use crate::laws::here_laws;
use crate::tables::Tables;
use cqp_order::Stand;
use cqp_syntax::NoMemory;
use cqp_trace::Deed;
use cqp_turns::Turn;
use std::alloc::Global;

impl Cells {
    /// The turn of a part that stands alone.
    pub(crate) fn own_turn(
        &self,
        tables: &Tables,
        alloc: Global,
        n: u32,
    ) -> Result<Option<Turn>, NoMemory>
        requires run { IsRunOf tables.now self.now }
        requires seen { IsAllSeen self.now }
        ensures { IfOk result (λ turn. HasOwnTurn tables.now self.now n turn) }
    {
        here_laws();
        tables.checked();
        if self.order.stand(n) != Some(Stand::Alone) {
            return Ok(None);
        }
        match self.slots.get(n) {
            Some(part) => Ok(Some(tables.turn(alloc, part)?)),
            None => Ok(None),
        }
    }

    /// Whether a deed is the turn's, whether or not its outcome is likely.
    pub(crate) fn is_deed_of(&self, turn: Turn, deed: &Deed) -> bool
        requires { length self.now.groups < 2 ^ 32 }
        ensures { IsTrue result ↔ IsDeedOfTurn (made_in self.now) turn deed.now }
    {
        match self.own_deed(turn, outcome_in(deed)) {
            Some(own) => own == *deed && has_outcome_bits(deed),
            None => false,
        }
    }

    /// The deed of a turn, with that outcome if it measures, where it isn't to wait.
    pub(crate) fn own_deed(&self, turn: Turn, outcome: u32) -> Option<Deed>
        requires { length self.now.groups < 2 ^ 32 }
        ensures { result ≡ deed_by (made_in self.now) outcome turn }
    {
        let deed = match turn {
            Turn::Qbit => Deed::Qbit {
                q: self.groups.made() as u32,
            },
            Turn::New => Deed::New {
                c: self.counts.chans,
            },
            Turn::Act => Deed::Act,
            Turn::Add { v } => Deed::Add { v },
            Turn::Pick { op } => Deed::Pick { op },
            Turn::Gate { op, qubits } => Deed::Gate { op, qubits },
            Turn::Measure { qubits } => Deed::Measure { qubits, outcome },
            Turn::If { yes } => Deed::If { yes },
            Turn::Send { .. } | Turn::Receive { .. } => return None,
        };
        Some(deed)
    }
}

// The outcome that a deed says.
fn outcome_in(deed: &Deed) -> u32
    ensures { result ≡ words.outcome_in deed.now }
{
    match deed {
        Deed::Measure { outcome, .. } => *outcome,
        _ => 0,
    }
}

// Whether an outcome has as many bits as there are qubits.
fn has_outcome_bits(deed: &Deed) -> bool
    ensures { IsTrue result ↔ HasOutcomeBits deed.now }
{
    match deed {
        Deed::Measure { qubits, outcome } => has_bits(*outcome, qubits.len()),
        _ => true,
    }
}

// Whether a number has at most so many bits.
fn has_bits(number: u32, bits: usize) -> bool
    ensures { IsTrue result ↔ number < 2 ^ bits }
{
    bits >= 32 || number < 1 << bits
}
