//! The definitions so far.

ghost use Rattle.std.specs.Prelude.{◌≡◌, ◌∷◌, [], List, OnOk};
ghost use Rattle.cqp_syntax.specs.declared.ty.Ty.{Ty};
ghost use Rattle.cqp_grammar.specs.Trees.{DefinitionTree};
ghost use Rattle.cqp_expand.specs.Outlines.{IsOutline, names_of, AreKnown};

use crate::NoMemory;
use crate::def_names::DefNames;
use crate::outline::Outline;
use std::alloc::Global;

/// The definitions so far: the number of each, and their outlines in order.
#[derive(Drop)]
pub(crate) struct Known<'a> {
    pub(crate) names: DefNames<'a>,
    pub(crate) outlines: Vec<Outline>,
}

impl<'a> Known<'a> {
    /// No definitions. It takes no memory.
    pub(crate) fn new(alloc: Global) -> Known<'a>
        ensures { (types : List Ty) → AreKnown types result [] }
    {
        Known {
            names: DefNames::new(alloc),
            outlines: Vec::new(alloc),
        }
    }

    /// Puts a definition last. Later calls of its name mean this one.
    pub(crate) fn add(&mut self, name: &'a [u8], outline: Outline) -> Result<(), NoMemory>
        ensures { (types : List Ty) (d : DefinitionTree) (ds : List DefinitionTree)
            → AreKnown types self.old ds → d.name ≡ name.now
            → IsOutline types self.old.outlines.items (names_of ds) d.params d.body outline
            → OnOk result (AreKnown types self.new (d ∷ ds)) }
    {
        self.names.add(name, self.outlines.len())?;
        self.outlines.push(outline)?;
        Ok(())
    }
}
