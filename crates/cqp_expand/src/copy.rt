//! The process of a program, copied from its outlines member by member. A call begins a copy of its
//! definition, so nothing recurses.

ghost use Rattle.std.specs.Prelude.{◌≡◌, ◌++◌, [], ◌+◌, ◌<◌, ◌≤◌, ◌^◌, length, map};
ghost use Rattle.std.specs.Prelude.{slice_index};
ghost use Rattle.std.specs.Prelude.{List, slice_get, Some, OnOk, IfOk};
ghost use Rattle.std.specs.List.{AllByRecursion};
ghost use Rattle.cqp_expand.specs.declared.outline.Member.{Member};
ghost use Rattle.cqp_syntax.specs.declared.ty.Ty.{Ty};
ghost use Rattle.cqp_grammar.specs.Trees.{ProgramTree};
ghost use Rattle.cqp_expand.specs.Copies.{IsSmall, IsCopyOf};
ghost use Rattle.cqp_expand.specs.Spread.{binds};
ghost use Rattle.cqp_expand.specs.Copying.{shown, begun, numbered, passed, with_own, with_call};
ghost use Rattle.cqp_expand.specs.Copying.{with_member, popped, CanBind, CanOwn, CanCall, CanCopy};

use crate::NoMemory;
use crate::outline::{Member, Outline};
use crate::renumbering::Renumbering;
use cqp_syntax::{Names, Node, Nodes};
use std::alloc::Global;
use std::slice;

/// A copy of a definition that is not complete.
#[derive(Clone, Copy)]
pub(crate) struct Instance {
    /// The definition.
    pub(crate) def: usize,
    /// The member that comes next.
    pub(crate) next: usize,
    /// Where the names of the copy begin.
    pub(crate) base: usize,
    /// The number of its first node.
    pub(crate) start: u32,
}

/// The copy so far.
#[derive(Drop)]
pub(crate) struct Copier {
    alloc: Global,
    /// The innermost copy last.
    instances: Vec<Instance>,
    /// The number of each name of the copies that are not complete, the innermost copy last.
    numbers: Vec<u32>,
    pub(crate) nodes: Nodes,
    pub(crate) ty_of: Names,
    pub(crate) at: Names,
}

/// The process of the last of the outlines, which has no parameters. The time grows with the nodes
/// and the calls that are copied.
pub(crate) fn copied(alloc: Global, outlines: &[Outline], def: usize) -> Result<Copier, NoMemory>
    requires last { def + 1 ≡ length outlines.now }
    requires known { (t : ProgramTree) × (types : List Ty) × IsSmall t types outlines.now }
    ensures { (t : ProgramTree) (types : List Ty) → IsSmall t types outlines.now
        → IfOk result (λ c. IsCopyOf t types c.nodes c.ty_of c.at) }
{
    let mut copier = Copier::with_room(alloc, outlines[def].count as usize)?;
    copier.begin(def, 0, 0)?;
    while let Some(instance) = copier.instances.pop() {
        let outline = &outlines[instance.def];
        if instance.next < outline.members.len() {
            copier.resume(instance)?;
            copier.member(outline, instance)?;
        }
    }
    Ok(copier)
}

impl Copier {
    /// Nothing, with room for so many nodes.
    fn with_room(alloc: Global, nodes: usize) -> Result<Copier, NoMemory>
        ensures { IfOk result (λ c. shown c
            ≡ record { instances = []; numbers = []; nodes = []; ty_of = []; at = [] }) }
    {
        Ok(Copier {
            alloc,
            instances: Vec::new(alloc),
            numbers: Vec::new(alloc),
            nodes: Nodes::with_capacity(alloc, nodes)?,
            ty_of: Names::new(alloc),
            at: Names::with_capacity(alloc, nodes)?,
        })
    }

    /// Begins a copy of a definition.
    fn begin(&mut self, def: usize, base: usize, start: u32) -> Result<(), NoMemory>
        ensures { OnOk result (shown self.new ≡ begun def base start (shown self.old)) }
    {
        self.instances.push(Instance {
            def,
            next: 0,
            base,
            start,
        })?;
        Ok(())
    }

    /// Puts a copy back, with its next member behind this one.
    fn resume(&mut self, instance: Instance) -> Result<(), NoMemory>
        requires { instance.next + 1 < 2 ^ 64 }
        ensures { OnOk result (shown self.new
            ≡ popped (shown self.old) self.old.instances.items instance) }
    {
        self.instances.push(Instance {
            next: instance.next + 1,
            ..instance
        })?;
        Ok(())
    }

    /// Copies a member.
    fn member(&mut self, outline: &Outline, instance: Instance) -> Result<(), NoMemory>
        requires within { instance.next < length outline.now.members.items }
        requires can { (x : Member) → slice_get outline.now.members.items instance.next ≡ Some x
            → CanCopy outline.now instance (shown self.old) x }
        ensures { OnOk result ((x : Member)
            → slice_get outline.now.members.items instance.next ≡ Some x
            → shown self.new ≡ with_member outline.now instance x (shown self.old)) }
    {
        match &outline.members[instance.next] {
            Member::Call { def, args } => self.call(outline, instance, *def, args),
            Member::Own { node } => self.own(outline, instance, node),
        }
    }

    /// Begins a copy of what is called, behind the numbers of its arguments.
    fn call(
        &mut self,
        outline: &Outline,
        instance: Instance,
        def: usize,
        args: &Names,
    ) -> Result<(), NoMemory>
        requires { CanCall outline.now instance args.now (shown self.old) }
        ensures { OnOk result
            (shown self.new ≡ with_call outline.now instance def args.now (shown self.old)) }
    {
        let base = self.numbers.len();
        let start = instance.start + outline.starts[instance.next];
        pass(&mut self.numbers, instance.base, args.as_slice())?;
        self.begin(def, base, start)
    }

    /// Copies a node.
    fn own(&mut self, outline: &Outline, instance: Instance, node: &Node) -> Result<(), NoMemory>
        requires { CanOwn outline.now instance node.now (shown self.old) }
        ensures { OnOk result
            (shown self.new ≡ with_own outline.now instance node.now (shown self.old)) }
    {
        self.at.push(outline.at[instance.next])?;
        self.bind(outline.ty_of.as_slice(), instance.base, node)?;
        let renumbering = Renumbering {
            numbers: self.numbers.as_slice(),
            base: instance.base,
            starts: outline.starts.as_slice(),
            start: instance.start,
        };
        let copy = renumbering.node(self.alloc, node)?;
        self.nodes.push(copy)
    }

    /// Gives the binders of a node the next numbers.
    fn bind(&mut self, types: &[u32], base: usize, node: &Node) -> Result<(), NoMemory>
        requires { CanBind types.now (length self.old.ty_of) base self.old.numbers.items
            (binds node.now) }
        ensures { OnOk result (shown self.new ≡ record {
          instances = self.old.instances.items;
          numbers = numbered base (length self.old.ty_of) self.old.numbers.items (binds node.now);
          nodes = self.old.nodes;
          ty_of = self.old.ty_of ++ map (slice_index types.now) (binds node.now);
          at = self.old.at;
        }) }
    {
        let names = binders(node);
        number(&mut self.numbers, self.ty_of.as_slice().len(), base, names)?;
        name_types(&mut self.ty_of, types, names)
    }
}

/// The names that a node binds.
fn binders(node: &Node) -> &[u32]
    ensures { result.now ≡ binds node.now }
{
    match node {
        Node::New { name, .. } | Node::Qbit { name, .. } => slice::from_ref(name),
        Node::In { params, .. } => params.as_slice(),
        _ => &[],
    }
}

/// Puts the numbers of arguments last.
fn pass(numbers: &mut Vec<u32>, base: usize, args: &[u32]) -> Result<(), NoMemory>
    requires { AllByRecursion (λ a. base + a < length numbers.old.items) args.now }
    ensures { OnOk result (numbers.new.items
        ≡ numbers.old.items ++ passed base numbers.old.items args.now) }
{
    for arg in args {
        let number = numbers[base + *arg as usize];
        numbers.push(number)?;
    }
    Ok(())
}

/// Gives names the numbers from `first` on, and forgets the copies that ended before.
fn number(numbers: &mut Vec<u32>, first: usize, base: usize, names: &[u32]) -> Result<(), NoMemory>
    requires few { first + length names.now < 2 ^ 32 }
    requires within { base ≤ length numbers.old.items }
    ensures { OnOk result
        (numbers.new.items ≡ numbered base first numbers.old.items names.now) }
{
    // A slice has fewer than 2^63 bytes, so that no sum wraps.
    let is_near = numbers.as_slice().len() < 1 << 63;
    prove!(is_near);
    let mut next = first as u32;
    for name in names {
        numbers.truncate(base + *name as usize);
        numbers.push(next)?;
        next += 1;
    }
    Ok(())
}

/// Puts the types of names last.
fn name_types(ty_of: &mut Names, types: &[u32], names: &[u32]) -> Result<(), NoMemory>
    requires { AllByRecursion (λ y. y < length types.now) names.now }
    ensures { OnOk result (ty_of.new ≡ ty_of.old ++ map (slice_index types.now) names.now) }
{
    for name in names {
        ty_of.push(types[*name as usize])?;
    }
    Ok(())
}
