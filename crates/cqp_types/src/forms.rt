//! The types that forms tell.

ghost use Rattle.std.specs.Prelude.{◌≡◌, ◌<◌, length};
ghost use Rattle.cqp_syntax.specs.TypeTrees.{type_at, int_type, op_type, same_type};
ghost use Rattle.cqp_syntax.specs.Trees.{named};
ghost use Rattle.cqp_syntax.specs.Listing.{type_of_name, expr_at};
ghost use Rattle.cqp_types.specs.Faults as faults;

use cqp_syntax::{Node, Proc, Ty};

/// Whether the name has type Qbit.
pub(crate) fn is_qubit(given: &Proc, name: u32) -> bool
    requires { name < length given.now.ty_of }
    ensures { result ≡ faults.is_qubit (type_of_name given.now) (named name) }
{
    matches!(given.ty(given.ty_of(name)), Ty::Qbit)
}

/// Whether the name has type Int.
fn is_number(given: &Proc, name: u32) -> bool
    requires { name < length given.now.ty_of }
    ensures { result ≡ same_type (type_of_name given.now name) int_type }
{
    matches!(given.ty(given.ty_of(name)), Ty::Int)
}

/// Whether the expression is a number by its form.
pub(crate) fn is_int(given: &Proc, expr: u32) -> bool
    requires { expr < length given.now.nodes }
    ensures { result ≡ faults.is_int (type_of_name given.now) (expr_at given.now expr) }
{
    match given.node(expr) {
        Node::Num { v: _ } | Node::Add { .. } | Node::Measure { qubits: _ } => true,
        Node::Name { name } => is_number(given, *name),
        _ => false,
    }
}

/// The places of the operator that the name is, if it is one.
fn places_of_name(given: &Proc, name: u32) -> Option<u32>
    requires { name < length given.now.ty_of }
    ensures { result ≡ faults.places_in (type_of_name given.now name) }
{
    match given.ty(given.ty_of(name)) {
        Ty::Op { places } => Some(*places),
        _ => None,
    }
}

/// The places of the operator that the expression is by its form, if it is one.
pub(crate) fn places_in(given: &Proc, expr: u32) -> Option<u32>
    requires { expr < length given.now.nodes }
    ensures { result ≡ faults.places_in
        (faults.form_type (type_of_name given.now) (expr_at given.now expr)) }
{
    match given.node(expr) {
        Node::Gate { op } => Some(op.places()),
        Node::Sig { of: _ } => Some(1),
        Node::Name { name } => places_of_name(given, *name),
        _ => None,
    }
}

/// Whether the expression has the type with this number by its form.
pub(crate) fn has_type(given: &Proc, expr: u32, number: u32) -> bool
    requires expr { expr < length given.now.nodes }
    requires number { number < length given.now.types }
    ensures { result ≡ same_type
        (faults.form_type (type_of_name given.now) (expr_at given.now expr))
        (type_at given.now.types number) }
{
    match given.node(expr) {
        Node::Name { name } => name_has_type(given, *name, number),
        Node::Num { v: _ } | Node::Add { .. } | Node::Measure { qubits: _ } => {
            matches!(given.ty(number), Ty::Int)
        }
        Node::Gate { op } => is_op(given, number, op.places()),
        Node::Sig { of: _ } => is_op(given, number, 1),
        _ => matches!(given.ty(number), Ty::Unit),
    }
}

/// Whether the name has the type with this number.
#[tactic(auto, using(crate::proofs::TypeNumbers::numbers_tell))]
pub(crate) fn name_has_type(given: &Proc, name: u32, number: u32) -> bool
    requires name { name < length given.now.ty_of }
    requires number { number < length given.now.types }
    ensures { result ≡ same_type (type_of_name given.now name) (type_at given.now.types number) }
{
    given.ty_of(name) == number
}

/// Whether the type with this number is that of operators with so many places.
fn is_op(given: &Proc, number: u32, count: u32) -> bool
    requires { number < length given.now.types }
    ensures { result ≡ same_type (op_type count) (type_at given.now.types number) }
{
    match given.ty(number) {
        Ty::Op { places } => *places == count,
        _ => false,
    }
}
