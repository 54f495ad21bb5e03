//! Where names are used, and where subtrees end.

ghost use Rattle.std.specs.Prelude.{◌≡◌, ◌<◌, length, map, ℕ, List, [], replicate, IfOk, OnOk};
ghost use Rattle.std.specs.List.{AllByRecursion, range_with_len};
ghost use Rattle.cqp_syntax.specs.Listing.{Listing, process_at};
ghost use Rattle.cqp_syntax.specs.NodeNames.{uses_in};
ghost use Rattle.cqp_parts.specs.Free.{is_free};
ghost use Rattle.cqp_syntax.specs.Ends.{end_at};
ghost use Rattle.cqp_uses.specs.Users.{IsUses, first_from, users_below, with_user, with_users};
ghost use Rattle.cqp_parts.specs.Parts.{IsProcessAt};

use crate::end::ends_of;
use cqp_syntax::{Names, NoMemory, Node, Proc};
use std::alloc::Global;
use std::marker::Model;

/// For each node the number behind its subtree, and for each name the nodes that use it.
#[derive(Drop)]
pub struct Uses {
    ends: Vec<u32>,
    names: Vec<Names>,
}

impl Model for Uses {
    ghost use Rattle.cqp_uses.specs.Users.{UseTables};

    ghost Value = { UseTables };

    ghost view = { λ s. record { ends = s.ends.items; names = s.names.items } };
}

impl Uses {
    /// The uses of a process's names, in time that grows as the process does.
    pub fn of(alloc: Global, proc: &Proc) -> Result<Uses, NoMemory>
        ensures { IfOk result (λ uses. IsUses proc.now uses) }
    {
        let ends = ends_of(alloc, proc)?;
        let mut names = none_used(alloc, proc.names())?;
        for n in 0..proc.len() {
            record(&mut names, proc.node(n), n)?;
        }
        Ok(Uses { ends, names })
    }

    /// Whether a name is free in the process at node n.
    pub fn is_free(&self, name: u32, n: u32) -> bool
        requires within { n < length self.now.ends }
        requires named { name < length self.now.names }
        ensures { (l : Listing) → IsUses l self.now → IsProcessAt l n
            → result ≡ is_free name (process_at l n) }
    {
        match self.user_from(name, n) {
            Some(user) => user < self.end(n),
            None => false,
        }
    }

    /// The first node from n on that uses a name.
    pub fn user_from(&self, name: u32, n: u32) -> Option<u32>
        requires named { name < length self.now.names }
        ensures { (l : Listing) → IsUses l self.now
            → result ≡ first_from n (users_below l (length l.nodes) name) }
    {
        let users = self.names[name as usize].as_slice();
        users.get(users.partition_point(|user| *user < n)).copied()
    }

    /// The number behind the subtree of node n.
    pub fn end(&self, n: u32) -> u32
        requires within { n < length self.now.ends }
        ensures { (l : Listing) → IsUses l self.now → result ≡ end_at l n }
    {
        self.ends[n as usize]
    }
}

/// No user for each name.
fn none_used(alloc: Global, count: u32) -> Result<Vec<Names>, NoMemory>
    ensures { IfOk result (λ names. names.items ≡ replicate count []) }
{
    let mut names = Vec::new(alloc);
    for _ in 0..count {
        names.push(Names::new(alloc))?;
    }
    Ok(names)
}

/// Notes the names that node n uses.
fn record(names: &mut Vec<Names>, node: &Node, n: u32) -> Result<(), NoMemory>
    requires { AllByRecursion (λ x. x < length names.old.items) (uses_in node.now) }
    ensures { OnOk result (names.new.items ≡ with_users n (uses_in node.now) names.old.items) }
{
    match node {
        Node::Name { name } => add(names, *name, n),
        Node::In { chan, .. } | Node::Out { chan, .. } => add(names, *chan, n),
        Node::Apply { qubits, op: _ } | Node::Measure { qubits } => {
            add_all(names, qubits.as_slice(), n)
        }
        _ => Ok(()),
    }
}

/// Notes that node n uses these names.
fn add_all(names: &mut Vec<Names>, used: &[u32], n: u32) -> Result<(), NoMemory>
    requires { AllByRecursion (λ x. x < length names.old.items) used.now }
    ensures { OnOk result (names.new.items ≡ with_users n used.now names.old.items) }
{
    for name in used {
        add(names, *name, n)?;
    }
    Ok(())
}

/// Notes that node n uses a name.
fn add(names: &mut Vec<Names>, name: u32, n: u32) -> Result<(), NoMemory>
    requires { name < length names.old.items }
    ensures { OnOk result (names.new.items ≡ with_user n name names.old.items) }
{
    names[name as usize].push(n)
}
