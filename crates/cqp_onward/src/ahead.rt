//! Where a part goes on, found before it does. Contracts see an `Ahead` as a `Lead`.

ghost use Rattle.std.specs.Prelude.{◌≡◌, ◌<◌, ℕ, [], length, true, None};
ghost use Rattle.std.specs.List.{AllByRecursion};
ghost use Rattle.std.specs.Option.{option_to_list};
ghost use Rattle.cqp_trace.specs.declared.deed.Deed.TheVariants as deed;
ghost use Rattle.cqp_parts.specs.Parts.{parts_after, process_of_part, IsProcessAt};
ghost use Rattle.cqp_standing.specs.Stands.{Stands};
ghost use Rattle.cqp_standing.specs.Suits.{suits};
ghost use Rattle.cqp_uses.specs.Users.{IsUses};
ghost use Rattle.cqp_onward.specs.Forgetting.{PrefixEnds};
ghost use Rattle.cqp_onward.specs.Leads.{parts_by, LeadsOn};

use crate::begin::begins;
use crate::parts::Parts;
use cqp_parts::Part;
use cqp_syntax::Proc;
use cqp_uses::Uses;
use std::marker::Model;

/// Where a part goes on that has sent: at its first prefix, beside parts at the others.
#[derive(Debug, Drop)]
pub struct Ahead {
    first: Option<u32>,
    others: Vec<Part>,
}

impl Model for Ahead {
    ghost use Rattle.std.specs.Prelude.{◌≡◌, [], None};
    ghost use Rattle.cqp_onward.specs.Leads.{Lead};

    ghost Value = { Lead };

    ghost view = { λ s. record { first = s.first; others = s.others.items } };

    ghost invariant = { λ s. s.first ≡ None → s.others.items ≡ [] };
}

impl Ahead {
    /// The first prefix, if there is one, and the parts at the others.
    pub(crate) fn of(first: Option<u32>, others: Vec<Part>) -> Ahead
        requires { first ≡ None → others.items ≡ [] }
        ensures { result ≡ record { first = first; others = others.items } }
    {
        Ahead { first, others }
    }

    /// The part goes on so. It takes no memory.
    pub fn go(self, proc: &Proc, uses: &Uses, part: Part) -> Parts
        requires uses { IsUses proc.now uses.now }
        requires stands { Stands proc.now part }
        requires leads { LeadsOn proc.now part self }
        ensures parts { (to chan : ℕ) → result ≡ parts_after proc.now part (deed.Com to chan) }
        ensures stand { (to chan : ℕ)
            → suits (process_of_part proc.now part) (deed.Com to chan) ≡ true
            → AllByRecursion (Stands proc.now) result }
    {
        self.begin(proc, uses, part)
    }

    /// The part goes on so, after whatever deed.
    pub(crate) fn begin(self, proc: &Proc, uses: &Uses, part: Part) -> Parts
        requires uses { IsUses proc.now uses.now }
        requires first { AllByRecursion (IsProcessAt proc.now) (option_to_list self.first) }
        requires names { AllByRecursion (λ b. b.name < length uses.now.names) part.env }
        requires ends { PrefixEnds proc.now part.node part.env }
        ensures { result ≡ parts_by proc.now part.env self }
    {
        let Ahead { first, others } = self;
        match first {
            None => Parts::from_pair(None, others),
            Some(n) => {
                let alone = others.is_empty();
                Parts::from_pair(Some(begins(proc, uses, part, n, alone)), others)
            }
        }
    }
}
