//! Nodes in their scopes.

ghost use Rattle.std.specs.Prelude.{◌≡◌, ◌∷◌, ◌++◌, [], List, length, map, IfOk, OnOk};
ghost use Rattle.std.specs.List.{range_with_len};
ghost use Rattle.cqp_syntax.specs.TypeTrees.{TypeTree, qbit_type};
ghost use Rattle.cqp_grammar.specs.Trees.{Parameter};
ghost use Rattle.cqp_program.specs.Listing.{param, ty_tree};
ghost use Rattle.cqp_expand.specs.Scopes.{find};
ghost use Rattle.cqp_expand.specs.Expansion.{number_in, numbers_in};
ghost use Rattle.cqp_expand.specs.Faults.{unbound_at, names_faults, repeats};
ghost use Rattle.cqp_expand.specs.Locals.{scope_in, after, told, IsLocal, Enters};
ghost use Rattle.cqp_expand.specs.Nodes.{HasTypes, bound, bound_by, plain, node_in, node_faults};

use crate::NoMemory;
use crate::locals::Locals;
use cqp_program::{Occ, Param, TreeNode, TyTree};
use cqp_syntax::{Names, Node};
use std::alloc::Global;

impl<'a> Locals<'a> {
    /// A node that is no call, in its scope.
    pub(crate) fn node(&mut self, node: &'a TreeNode, at: u32) -> Result<Node, NoMemory>
        requires types { HasTypes node.now }
        requires local { IsLocal self.old }
        ensures node { IfOk result (λ x. x
            ≡ node_in (scope_in self.old) (length self.old.ty_of) node.now) }
        ensures enters { (h : HasTypes node.now) → OnOk result (Enters self.old self.new
            (bound_by node.now h.ty h.params)
            (node_faults (scope_in self.old) at node.now h.params)) }
    {
        match node {
            TreeNode::New { name, ty, body } => self.new_node(name, ty, *body),
            TreeNode::Qbit { name, body } => self.qbit_node(name, *body),
            TreeNode::In { chan, params, body } => self.input_node(chan, params.as_slice(), *body),
            TreeNode::Out { chan, args, body } => self.output_node(chan, args, *body),
            TreeNode::Name { name } => Ok(self.name_node(name.as_slice(), at)),
            TreeNode::Apply { qubits, op } => self.apply_node(qubits.as_slice(), *op),
            TreeNode::Measure { qubits } => self.measure_node(qubits.as_slice()),
            _ => Ok(plain(node)),
        }
    }

    fn new_node(&mut self, name: &'a Occ, ty: &TyTree, body: u32) -> Result<Node, NoMemory>
        requires tree { (t : TypeTree) × (ty.now ≡ ty_tree t) }
        requires local { IsLocal self.old }
        ensures node { IfOk result (λ x. x ≡ Node.New (length self.old.ty_of) body) }
        ensures enters { (t : TypeTree) → ty.now ≡ ty_tree t
            → OnOk result (Enters self.old self.new (bound name.now t ∷ []) []) }
    {
        let name = self.enter(name.name.as_slice(), ty)?;
        Ok(Node::New { name, body })
    }

    fn qbit_node(&mut self, name: &'a Occ, body: u32) -> Result<Node, NoMemory>
        requires { IsLocal self.old }
        ensures node { IfOk result (λ x. x ≡ Node.Qbit (length self.old.ty_of) body) }
        ensures enters { OnOk result (Enters self.old self.new (bound name.now qbit_type ∷ []) []) }
    {
        let name = self.enter_qubit(name.name.as_slice())?;
        Ok(Node::Qbit { name, body })
    }

    fn input_node(&mut self, chan: &Occ, params: &'a [Param], body: u32) -> Result<Node, NoMemory>
        requires trees { (ps : List Parameter) × (params.now ≡ map param ps) }
        requires local { IsLocal self.old }
        ensures node { IfOk result (λ x. x
            ≡ Node.In (number_in (scope_in self.old) chan.now.name)
            (range_with_len (length self.old.ty_of) (length params.now)) body) }
        ensures enters { (ps : List Parameter) → params.now ≡ map param ps
            → OnOk result (Enters self.old self.new ps
            (unbound_at (find (scope_in self.old) chan.now.name) chan.now.at ++ repeats [] ps)) }
    {
        let chan = self.name(chan);
        let params = self.params(params)?;
        Ok(Node::In { chan, params, body })
    }

    fn output_node(&mut self, chan: &Occ, args: &Names, body: u32) -> Result<Node, NoMemory>
        ensures node { IfOk result (λ x. x
            ≡ Node.Out (number_in (scope_in self.old) chan.now.name) args.now body) }
        ensures faults { OnOk result (self.new
            ≡ after self.old (unbound_at (find (scope_in self.old) chan.now.name) chan.now.at)) }
    {
        let chan = self.name(chan);
        let args = copied(self.alloc, args)?;
        Ok(Node::Out { chan, args, body })
    }

    fn name_node(&mut self, text: &[u8], at: u32) -> Node
        ensures node { result ≡ Node.Name (number_in (scope_in self.old) text.now) }
        ensures faults { self.new
            ≡ after self.old (unbound_at (find (scope_in self.old) text.now) at) }
    {
        let name = self.named(text, at);
        Node::Name { name }
    }

    fn apply_node(&mut self, qubits: &[Occ], op: u32) -> Result<Node, NoMemory>
        ensures node { IfOk result (λ x. x
            ≡ Node.Apply (numbers_in (scope_in self.old) (map told qubits.now)) op) }
        ensures faults { OnOk result (self.new
            ≡ after self.old (names_faults (scope_in self.old) (map told qubits.now))) }
    {
        let qubits = self.named_all(qubits)?;
        Ok(Node::Apply { qubits, op })
    }

    fn measure_node(&mut self, qubits: &[Occ]) -> Result<Node, NoMemory>
        ensures node { IfOk result (λ x. x
            ≡ Node.Measure (numbers_in (scope_in self.old) (map told qubits.now))) }
        ensures faults { OnOk result (self.new
            ≡ after self.old (names_faults (scope_in self.old) (map told qubits.now))) }
    {
        let qubits = self.named_all(qubits)?;
        Ok(Node::Measure { qubits })
    }
}

/// A node that neither binds nor names anything.
fn plain(node: &TreeNode) -> Node
    ensures { result ≡ plain node.now }
{
    match node {
        TreeNode::Par { left, right } => par(*left, *right),
        TreeNode::Act { expr, body } => act(*expr, *body),
        TreeNode::If {
            left,
            right,
            yes,
            no,
        } => branches(*left, *right, *yes, *no),
        TreeNode::Num { v } => Node::Num { v: *v },
        TreeNode::Unit => Node::Unit,
        TreeNode::Gate { op } => Node::Gate { op: *op },
        TreeNode::Sig { of } => Node::Sig { of: *of },
        TreeNode::Add { left, right } => add(*left, *right),
        _ => Node::Nil,
    }
}

pub(crate) fn par(left: u32, right: u32) -> Node
    ensures { result ≡ Node.Par left right }
{
    Node::Par { left, right }
}

pub(crate) fn act(expr: u32, body: u32) -> Node
    ensures { result ≡ Node.Act expr body }
{
    Node::Act { expr, body }
}

pub(crate) fn branches(left: u32, right: u32, yes: u32, no: u32) -> Node
    ensures { result ≡ Node.If left right yes no }
{
    Node::If {
        left,
        right,
        yes,
        no,
    }
}

pub(crate) fn add(left: u32, right: u32) -> Node
    ensures { result ≡ Node.Add left right }
{
    Node::Add { left, right }
}

/// A copy of a list of numbers.
fn copied(alloc: Global, names: &Names) -> Result<Names, NoMemory>
    ensures { IfOk result (λ ns. ns ≡ names.now) }
{
    Names::from_slice(alloc, names.as_slice())
}
