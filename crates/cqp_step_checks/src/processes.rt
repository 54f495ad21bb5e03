//! Processes, made by hand.

ghost use Rattle.std.specs.Prelude.{◌≡◌, [], ◌∷◌, length, replicate, IfOk};
ghost use Rattle.cqp_syntax.specs.declared.ty.Ty.TheVariants as ty;
ghost use Rattle.cqp_step_checks.specs.Processes.{nothing_lists, received_lists, shared_lists};
ghost use Rattle.cqp_step_checks.specs.Processes.{sides_lists, sums_lists};

use crate::nodes::{received_nodes, shared_nodes, sides_nodes, sums_nodes};
use crate::told::Told;
use cqp_syntax::{Names, NoMemory, Node, Nodes, Proc, Ty, Types};
use std::alloc::Global;

/// A list of numbers.
pub(crate) fn numbers(alloc: Global, items: &[u32]) -> Result<Names, NoMemory>
    ensures { IfOk result (λ numbers. numbers ≡ items.now) }
{
    Ok(Names::from_vec(items.to_vec(alloc)?))
}

/// As many zeros, in the place of offsets.
fn zeros(alloc: Global, nodes: &Nodes) -> Result<Names, NoMemory>
    ensures { IfOk result (λ at. at ≡ replicate (length nodes.now) 0) }
{
    let count = nodes.as_slice().len();
    Ok(Names::from_vec(vec![in alloc; 0u32; count]?))
}

/// What is told of `0`.
pub(crate) fn nothing_told(alloc: Global) -> Result<Told, NoMemory>
    ensures { IfOk result (λ told. told ≡ nothing_lists) }
{
    let mut nodes = Nodes::new(alloc);
    nodes.push(Node::Nil)?;
    let at = zeros(alloc, &nodes)?;
    Told::of(
        alloc,
        Proc::make(nodes, Types::new(alloc), Names::new(alloc), at),
    )
}

/// What is told of `((new a:^[])0|0)|(qbit x)0|{unit}.0`.
pub(crate) fn sides_told(alloc: Global) -> Result<Told, NoMemory>
    ensures { IfOk result (λ told. told ≡ sides_lists) }
{
    let nodes = sides_nodes(alloc)?;
    let mut types = Types::new(alloc);
    types.push(Ty::Chan {
        of: Names::new(alloc),
    })?;
    types.push(Ty::Qbit)?;
    let ty_of = numbers(alloc, &[0, 1])?;
    let at = zeros(alloc, &nodes)?;
    Told::of(alloc, Proc::make(nodes, types, ty_of, at))
}

/// Types: one, and a channel of so many of them.
fn channel_of(alloc: Global, first: Ty, parts: &[u32]) -> Result<Types, NoMemory>
    ensures { IfOk result (λ types. types ≡ first ∷ ty.Chan parts.now ∷ []) }
{
    let of = numbers(alloc, parts)?;
    let mut types = Types::new(alloc);
    types.push(first)?;
    types.push(Ty::Chan { of })?;
    Ok(types)
}

/// What is told of `(new c:^[Int,Int])c?[m:Int,n:Int].if m + 1 = n + 3 then {unit}.0 else 0`.
pub(crate) fn received_told(alloc: Global) -> Result<Told, NoMemory>
    ensures { IfOk result (λ told. told ≡ received_lists) }
{
    let nodes = received_nodes(alloc)?;
    let types = channel_of(alloc, Ty::Int, &[0, 0])?;
    let ty_of = numbers(alloc, &[1, 0, 0])?;
    let at = zeros(alloc, &nodes)?;
    Told::of(alloc, Proc::make(nodes, types, ty_of, at))
}

/// What is told of them.
pub(crate) fn shared_told(alloc: Global) -> Result<Told, NoMemory>
    ensures { IfOk result (λ told. told ≡ shared_lists) }
{
    let nodes = shared_nodes(alloc)?;
    let types = channel_of(alloc, Ty::Qbit, &[0])?;
    let ty_of = numbers(alloc, &[1, 0, 0, 0, 0])?;
    let at = zeros(alloc, &nodes)?;
    Told::of(alloc, Proc::make(nodes, types, ty_of, at))
}

/// What is told of them.
pub(crate) fn sums_told(alloc: Global) -> Result<Told, NoMemory>
    ensures { IfOk result (λ told. told ≡ sums_lists) }
{
    let nodes = sums_nodes(alloc)?;
    let mut types = Types::new(alloc);
    types.push(Ty::Int)?;
    types.push(Ty::Qbit)?;
    types.push(Ty::Chan {
        of: numbers(alloc, &[0, 0])?,
    })?;
    let ty_of = numbers(alloc, &[2, 1, 1])?;
    let at = zeros(alloc, &nodes)?;
    Told::of(alloc, Proc::make(nodes, types, ty_of, at))
}
