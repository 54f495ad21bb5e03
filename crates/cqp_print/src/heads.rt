//! Heads of nodes: what stands before their parts.

ghost use Rattle.std.specs.Prelude.{◌≡◌, ◌∷◌, ◌++◌, [], List, OnOk, map};
ghost use Rattle.cqp_grammar.specs.declared.token.Token.TheVariants.{Name, Reserved, Symbol};
ghost use Rattle.cqp_grammar.specs.declared.token.ReservedWord.TheVariants.{Measure, Sig};
ghost use Rattle.cqp_grammar.specs.declared.token.SymbolKind.TheVariants.{Applies, Open};
ghost use Rattle.cqp_grammar.specs.Trees.{Parameter};
ghost use Rattle.cqp_grammar.specs.Canonical.{in_parentheses};
ghost use Rattle.cqp_syntax.specs.TypeTrees.{TypeTree};
ghost use Rattle.cqp_program.specs.Listing.{param, ty_tree};
ghost use Rattle.cqp_print.specs.Written.{after};
ghost use Rattle.cqp_print.specs.Lists.{occs_tokens};
ghost use Rattle.cqp_print.specs.Trees.{head_of, HasTypes};
ghost use Rattle.cqp_print.specs.Trees.{new_head, qbit_head, input_head, output_head};

use crate::NoMemory;
use crate::writer::Writer;
use cqp_grammar::{ReservedWord, SymbolKind, gate_word};
use cqp_program::{Occ, Param, TreeNode, TyTree};

impl Writer {
    /// Writes what of a node stands before its parts.
    pub(crate) fn head(&mut self, node: &TreeNode) -> Result<(), NoMemory>
        requires { HasTypes node.now }
        ensures { (h : HasTypes node.now)
            → OnOk result (self.new ≡ after self.old (head_of node.now h.ty h.params)) }
    {
        match node {
            TreeNode::Nil => self.number(0),
            TreeNode::Par { .. } | TreeNode::Add { .. } => Ok(()),
            TreeNode::New { name, ty, .. } => self.new_head(name, ty),
            TreeNode::Qbit { name, .. } => self.qbit_head(name),
            TreeNode::Act { .. } => self.symbol(SymbolKind::OpenAct),
            TreeNode::In { chan, params, .. } => self.input_head(chan, params.as_slice()),
            TreeNode::Out { chan, .. } => self.output_head(chan),
            TreeNode::If { .. } => self.reserved(ReservedWord::If),
            TreeNode::Num { v } => self.number(*v),
            TreeNode::Unit => self.reserved(ReservedWord::UnitValue),
            TreeNode::Name { name } => self.name(name.as_slice()),
            TreeNode::Gate { op } => self.reserved(gate_word(*op)),
            TreeNode::Sig { .. } => self.sig_head(),
            TreeNode::Apply { qubits, .. } => self.apply_head(qubits.as_slice()),
            TreeNode::Measure { qubits } => self.measure(qubits.as_slice()),
            TreeNode::Call { name, args } => self.call(name.as_slice(), args.as_slice()),
        }
    }

    /// Writes a binder of a channel with its type, in parentheses.
    #[tactic(auto, using(crate::proofs::Written::joins))]
    fn new_head(&mut self, name: &Occ, ty: &TyTree) -> Result<(), NoMemory>
        requires { (t : TypeTree) × (ty.now ≡ ty_tree t) }
        ensures { (t : TypeTree) → ty.now ≡ ty_tree t
            → OnOk result (self.new ≡ after self.old (new_head name.now t)) }
    {
        self.symbol(SymbolKind::Open)?;
        self.reserved(ReservedWord::New)?;
        self.name(name.name.as_slice())?;
        self.symbol(SymbolKind::Colon)?;
        self.ty(ty)?;
        self.symbol(SymbolKind::Close)
    }

    /// Writes a binder of a qubit, in parentheses.
    fn qbit_head(&mut self, name: &Occ) -> Result<(), NoMemory>
        ensures { OnOk result (self.new ≡ after self.old (qbit_head name.now)) }
    {
        self.symbol(SymbolKind::Open)?;
        self.reserved(ReservedWord::MakeQbit)?;
        self.name(name.name.as_slice())?;
        self.symbol(SymbolKind::Close)
    }

    /// Writes what an input receives, up to its body.
    #[tactic(auto, using(crate::proofs::Written::joins))]
    fn input_head(&mut self, chan: &Occ, params: &[Param]) -> Result<(), NoMemory>
        requires { (ps : List Parameter) × (params.now ≡ map param ps) }
        ensures { (ps : List Parameter) → params.now ≡ map param ps
            → OnOk result (self.new ≡ after self.old (input_head chan.now ps)) }
    {
        self.name(chan.name.as_slice())?;
        self.symbol(SymbolKind::Question)?;
        self.symbol(SymbolKind::OpenList)?;
        self.params(params)?;
        self.symbol(SymbolKind::CloseList)?;
        self.symbol(SymbolKind::Dot)
    }

    /// Writes what stands before the items of an output.
    fn output_head(&mut self, chan: &Occ) -> Result<(), NoMemory>
        ensures { OnOk result (self.new ≡ after self.old (output_head chan.now)) }
    {
        self.name(chan.name.as_slice())?;
        self.symbol(SymbolKind::Bang)?;
        self.symbol(SymbolKind::OpenList)
    }

    /// Opens a `sig`, which the part closes.
    fn sig_head(&mut self) -> Result<(), NoMemory>
        ensures { OnOk result (self.new ≡ after self.old (Reserved Sig 0 ∷ Symbol Open 0 ∷ [])) }
    {
        self.reserved(ReservedWord::Sig)?;
        self.symbol(SymbolKind::Open)
    }

    /// Writes the qubits to which a gate is applied.
    #[tactic(auto, using(crate::proofs::Written::joins))]
    fn apply_head(&mut self, qubits: &[Occ]) -> Result<(), NoMemory>
        ensures { OnOk result (self.new
            ≡ after self.old (occs_tokens qubits.now ++ Symbol Applies 0 ∷ [])) }
    {
        self.names(qubits)?;
        self.symbol(SymbolKind::Applies)
    }

    /// Writes a measurement.
    fn measure(&mut self, qubits: &[Occ]) -> Result<(), NoMemory>
        ensures { OnOk result (self.new ≡ after self.old (Reserved Measure 0
            ∷ occs_tokens qubits.now)) }
    {
        self.reserved(ReservedWord::Measure)?;
        self.names(qubits)
    }

    /// Writes a call of a definition.
    #[tactic(auto, using(crate::proofs::Written::joins))]
    fn call(&mut self, name: &[u8], args: &[Occ]) -> Result<(), NoMemory>
        ensures { OnOk result (self.new
            ≡ after self.old (Name name.now 0 ∷ in_parentheses (occs_tokens args.now))) }
    {
        self.name(name)?;
        self.symbol(SymbolKind::Open)?;
        self.names(args)?;
        self.symbol(SymbolKind::Close)
    }
}
