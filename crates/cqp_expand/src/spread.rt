//! The lists of a program's process, from its outlines. A main process before which no definition
//! stands is no copy: its outline has them.

ghost use Rattle.std.specs.Prelude.{◌≡◌, ◌<◌, ◌++◌, ◌∷◌, [], List, length, IfOk, OnOk};
ghost use Rattle.cqp_syntax.specs.declared.ty.Ty.{Ty};
ghost use Rattle.cqp_grammar.specs.Trees.{ProgramTree};
ghost use Rattle.cqp_expand.specs.Copies.{IsSmall, IsCopyOf, own_nodes};

use crate::NoMemory;
use crate::copy::copied;
use crate::outline::{Member, Outline};
use cqp_syntax::{Names, Nodes};
use std::alloc::{AllocError, Global};

/// The nodes of a process, the types of its names and the offsets of its nodes.
#[derive(Drop)]
pub(crate) struct Lists {
    pub(crate) nodes: Nodes,
    pub(crate) ty_of: Names,
    pub(crate) at: Names,
}

/// The lists of the last outline's process. The time grows with its nodes, and with the calls that
/// are copied.
pub(crate) fn spread(alloc: Global, mut outlines: Vec<Outline>) -> Result<Lists, NoMemory>
    requires { (t : ProgramTree) × (types : List Ty) × IsSmall t types outlines.items }
    ensures { (t : ProgramTree) (types : List Ty) → IsSmall t types outlines.items
        → IfOk result (λ l. IsCopyOf t types l.nodes l.ty_of l.at) }
{
    if outlines.len() > 1 {
        return copy(alloc, outlines.as_slice());
    }
    match outlines.pop() {
        Some(main) => alone(alloc, main),
        None => Err(AllocError),
    }
}

/// The lists of the last outline's process, copied.
fn copy(alloc: Global, outlines: &[Outline]) -> Result<Lists, NoMemory>
    requires some { 1 < length outlines.now }
    requires known { (t : ProgramTree) × (types : List Ty) × IsSmall t types outlines.now }
    ensures { (t : ProgramTree) (types : List Ty) → IsSmall t types outlines.now
        → IfOk result (λ l. IsCopyOf t types l.nodes l.ty_of l.at) }
{
    let copy = copied(alloc, outlines, outlines.len() - 1)?;
    Ok(Lists {
        nodes: copy.nodes,
        ty_of: copy.ty_of,
        at: copy.at,
    })
}

/// The lists of an outline whose members are nodes.
fn alone(alloc: Global, outline: Outline) -> Result<Lists, NoMemory>
    ensures nodes { IfOk result (λ l. l.nodes ≡ own_nodes outline.members.items) }
    ensures types { IfOk result (λ l. l.ty_of ≡ outline.ty_of.items) }
    ensures offsets { IfOk result (λ l. l.at ≡ outline.at.items) }
{
    let Outline {
        members,
        at,
        ty_of,
        ..
    } = outline;
    let nodes = nodes_of(alloc, members)?;
    Ok(Lists {
        nodes,
        ty_of: Names::from_vec(ty_of),
        at: Names::from_vec(at),
    })
}

/// The nodes among members, which are no calls.
fn nodes_of(alloc: Global, members: Vec<Member>) -> Result<Nodes, NoMemory>
    ensures { IfOk result (λ nodes. nodes ≡ own_nodes members.items) }
{
    let mut nodes = Nodes::with_capacity(alloc, members.len())?;
    for member in members {
        add(&mut nodes, member)?;
    }
    Ok(nodes)
}

/// Puts a member last that is a node.
fn add(nodes: &mut Nodes, member: Member) -> Result<(), NoMemory>
    ensures { OnOk result (nodes.new ≡ nodes.old ++ own_nodes (member ∷ [])) }
{
    match member {
        Member::Own { node } => nodes.push(node),
        Member::Call { .. } => Ok(()),
    }
}
