//! Where a copy of a definition stands in the process: what its names and its nodes are numbered.

ghost use Rattle.std.specs.Prelude.{◌≡◌, ◌<◌, map, IfOk};
ghost use Rattle.std.specs.List.{AllByRecursion};
ghost use Rattle.cqp_expand.specs.Flat.{IsFlat};
ghost use Rattle.cqp_expand.specs.Moved.{moved, name_at, node_at, HasName, HasNode, HasNumbers};

use crate::NoMemory;
use crate::nodes::{act, add, branches, par};
use cqp_syntax::{Names, Node};
use std::alloc::Global;

/// A copy's numbers. Name x of the definition has number `numbers[base + x]`, and its node n has
/// number `start + starts[n]`.
#[derive(Clone, Copy)]
pub(crate) struct Renumbering<'a> {
    pub(crate) numbers: &'a [u32],
    pub(crate) base: usize,
    pub(crate) starts: &'a [u32],
    pub(crate) start: u32,
}

impl<'a> Renumbering<'a> {
    fn name(self, name: u32) -> u32
        requires { HasName self name }
        ensures { result ≡ name_at self.entry name }
    {
        self.numbers[self.base + name as usize]
    }

    fn at(self, node: u32) -> u32
        requires { HasNode self node }
        ensures { result ≡ node_at self.entry node }
    {
        self.start + self.starts[node as usize]
    }

    fn names(self, alloc: Global, names: &Names) -> Result<Names, NoMemory>
        requires { AllByRecursion (HasName self) names.now }
        ensures { IfOk result (λ ns. ns ≡ map (name_at self.entry) names.now) }
    {
        let mut numbers = Names::with_capacity(alloc, names.as_slice().len())?;
        for name in names.as_slice() {
            numbers.push(self.name(*name))?;
        }
        Ok(numbers)
    }

    fn all(self, alloc: Global, nodes: &Names) -> Result<Names, NoMemory>
        requires { AllByRecursion (HasNode self) nodes.now }
        ensures { IfOk result (λ ns. ns ≡ map (node_at self.entry) nodes.now) }
    {
        let mut numbers = Names::with_capacity(alloc, nodes.as_slice().len())?;
        for node in nodes.as_slice() {
            numbers.push(self.at(*node))?;
        }
        Ok(numbers)
    }

    /// A node of a process, with the copy's numbers.
    pub(crate) fn node(self, alloc: Global, node: &Node) -> Result<Node, NoMemory>
        requires { HasNumbers self node.now }
        ensures { IfOk result (λ copy. copy
            ≡ moved (name_at self.entry) (node_at self.entry) node.now) }
    {
        match node {
            Node::In { chan, params, body } => self.input(alloc, *chan, params, *body),
            Node::Out { chan, args, body } => self.output(alloc, *chan, args, *body),
            Node::Apply { qubits, op } => self.apply(alloc, qubits, *op),
            Node::Measure { qubits } => self.measure(alloc, qubits),
            Node::If {
                left,
                right,
                yes,
                no,
            } => Ok(branches(self.at(*left), self.at(*right), self.at(*yes), self.at(*no))),
            _ => Ok(self.flat(node)),
        }
    }

    fn input(self, alloc: Global, chan: u32, params: &Names, body: u32) -> Result<Node, NoMemory>
        requires chan { HasName self chan }
        requires params { AllByRecursion (HasName self) params.now }
        requires body { HasNode self body }
        ensures { IfOk result (λ x. x ≡ Node.In (name_at self.entry chan)
            (map (name_at self.entry) params.now) (node_at self.entry body)) }
    {
        let params = self.names(alloc, params)?;
        let (chan, body) = (self.name(chan), self.at(body));
        Ok(Node::In { chan, params, body })
    }

    fn output(self, alloc: Global, chan: u32, args: &Names, body: u32) -> Result<Node, NoMemory>
        requires chan { HasName self chan }
        requires args { AllByRecursion (HasNode self) args.now }
        requires body { HasNode self body }
        ensures { IfOk result (λ x. x ≡ Node.Out (name_at self.entry chan)
            (map (node_at self.entry) args.now) (node_at self.entry body)) }
    {
        let args = self.all(alloc, args)?;
        let (chan, body) = (self.name(chan), self.at(body));
        Ok(Node::Out { chan, args, body })
    }

    fn apply(self, alloc: Global, qubits: &Names, op: u32) -> Result<Node, NoMemory>
        requires qubits { AllByRecursion (HasName self) qubits.now }
        requires op { HasNode self op }
        ensures { IfOk result (λ x. x
            ≡ Node.Apply (map (name_at self.entry) qubits.now) (node_at self.entry op)) }
    {
        let qubits = self.names(alloc, qubits)?;
        let op = self.at(op);
        Ok(Node::Apply { qubits, op })
    }

    fn measure(self, alloc: Global, qubits: &Names) -> Result<Node, NoMemory>
        requires { AllByRecursion (HasName self) qubits.now }
        ensures { IfOk result (λ x. x ≡ Node.Measure (map (name_at self.entry) qubits.now)) }
    {
        let qubits = self.names(alloc, qubits)?;
        Ok(Node::Measure { qubits })
    }

    /// A node without lists and branches, with the copy's numbers.
    fn flat(self, node: &Node) -> Node
        requires flat { IsFlat node.now }
        requires numbers { HasNumbers self node.now }
        ensures { result ≡ moved (name_at self.entry) (node_at self.entry) node.now }
    {
        match node {
            Node::Par { left, right } => par(self.at(*left), self.at(*right)),
            Node::New { name, body } => new(self.name(*name), self.at(*body)),
            Node::Qbit { name, body } => qbit(self.name(*name), self.at(*body)),
            Node::Act { expr, body } => act(self.at(*expr), self.at(*body)),
            Node::Num { v } => Node::Num { v: *v },
            Node::Unit => Node::Unit,
            Node::Name { name } => named(self.name(*name)),
            Node::Gate { op } => Node::Gate { op: *op },
            Node::Sig { of } => Node::Sig { of: self.at(*of) },
            Node::Add { left, right } => add(self.at(*left), self.at(*right)),
            _ => Node::Nil,
        }
    }
}

fn new(name: u32, body: u32) -> Node
    ensures { result ≡ Node.New name body }
{
    Node::New { name, body }
}

fn qbit(name: u32, body: u32) -> Node
    ensures { result ≡ Node.Qbit name body }
{
    Node::Qbit { name, body }
}

fn named(name: u32) -> Node
    ensures { result ≡ Node.Name name }
{
    Node::Name { name }
}
