//! What fails at a node, but for what is on both sides of a parallel composition.

ghost use Rattle.std.specs.Prelude.{◌≡◌, ◌+◌, ◌<◌, ◌&&◌, IfOk, length};
ghost use Rattle.cqp_syntax.specs.Listing.{Listing, type_of_name, expr_at};
ghost use Rattle.cqp_types.specs.Faults as faults;
ghost use Rattle.cqp_types.specs.Marks.{IsUnmarked, IsMarkedBy};
ghost use Rattle.cqp_types.specs.Rows.{FindsRow, row_at};
ghost use Rattle.cqp_types.specs.Sending.{HasTables};
ghost use Rattle.cqp_types.specs.Tables.{EndsFrom};

use crate::forms::{is_int, places_in};
use crate::kind::Kind;
use crate::marks::Marks;
use crate::rows::{apply_fault, input_fault, measure_fault, new_fault, numbers_fault};
use crate::sending::output_fault;
use crate::uses::Uses;
use cqp_syntax::{NoMemory, Node, Proc};
use std::alloc::Global;

/// A node that fails, and how.
#[derive(Clone, Copy, Debug)]
pub(crate) struct Fault {
    pub(crate) node: u32,
    pub(crate) kind: Kind,
}

/// The least node that fails by its row.
pub(crate) fn least_fault(
    alloc: Global,
    given: &Proc,
    count: u32,
    ends: &[u32],
) -> Result<Option<Fault>, NoMemory>
    requires count { count ≡ length given.now.nodes }
    requires ends { EndsFrom given.now ends.now 0 }
    ensures { IfOk result (λ f. FindsRow given.now 0 f) }
{
    let nodes = given.len();
    let mut uses = Uses::new(alloc, given.names(), count)?;
    let mut marks = Marks::new(alloc, given.names(), count)?;
    let mut least = None;
    for k in 0..nodes {
        let n = nodes - 1 - k;
        let found = fault_at(given, ends[n as usize], &uses, &mut marks, n);
        uses.record(n, given.node(n));
        least = earlier_row(n, found, least);
    }
    Ok(least)
}

/// The fault of node n, or that of a node behind it.
#[tactic(auto, using(crate::proofs::RowSteps::fails_here, crate::proofs::RowSteps::passes_here))]
fn earlier_row(n: u32, found: Option<Kind>, least: Option<Fault>) -> Option<Fault>
    ensures { (l : Listing) → n < length l.nodes → found ≡ row_at l n → FindsRow l (n + 1) least
        → FindsRow l n result }
{
    match found {
        Some(kind) => Some(Fault { node: n, kind }),
        None => least,
    }
}

/// What fails at node n by its row.
fn fault_at(given: &Proc, end: u32, uses: &Uses, marks: &mut Marks, n: u32) -> Option<Kind>
    requires tables { HasTables given.now n end uses.now.first.items uses.now.second.items }
    requires marks { length marks.old.by.items ≡ length given.now.ty_of }
    requires unmarked { IsUnmarked n marks.old.by.items }
    ensures fault { result ≡ row_at given.now n }
    ensures marked { IsMarkedBy n marks.old.by.items marks.new.by.items }
{
    match given.node(n) {
        Node::New { name, body: _ } => new_fault(given, *name),
        Node::In { chan, params, .. } => input_fault(given, *chan, params.as_slice()),
        Node::Out { chan, args, .. } => {
            output_fault(given, end, uses, marks, n, *chan, args.as_slice())
        }
        Node::If { left, right, .. } => numbers_fault(are_ints(given, *left, *right)),
        Node::Add { left, right } => numbers_fault(are_ints(given, *left, *right)),
        Node::Sig { of } => numbers_fault(is_int(given, *of)),
        Node::Apply { qubits, op } => {
            apply_fault(given, marks, n, qubits.as_slice(), places_in(given, *op))
        }
        Node::Measure { qubits } => measure_fault(given, marks, n, qubits.as_slice()),
        _ => None,
    }
}

/// Whether both expressions are numbers by their forms.
fn are_ints(given: &Proc, left: u32, right: u32) -> bool
    requires left { left < length given.now.nodes }
    requires right { right < length given.now.nodes }
    ensures { result ≡ (faults.is_int (type_of_name given.now) (expr_at given.now left)
        && faults.is_int (type_of_name given.now) (expr_at given.now right)) }
{
    both(is_int(given, left), is_int(given, right))
}

/// Whether both hold.
fn both(first: bool, second: bool) -> bool
    ensures { result ≡ (first && second) }
{
    first && second
}
