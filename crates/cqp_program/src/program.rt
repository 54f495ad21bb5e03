//! Programs before their definitions are expanded: what they bind and what they name.

use crate::tree::Tree;
use cqp_grammar::NameText;
use cqp_lists::List;
use cqp_syntax::Types;
use std::marker::Model;

/// The tree of a program text, as lists: its definitions in order, and the main process. Each name
/// in it is a name of the grammar, what is applied or measured has an operand, and an `Op` has one,
/// two or three places.
#[derive(Debug, Drop)]
pub struct Program<'a> {
    pub defs: Defs<'a>,
    pub main: Tree<'a>,
}

impl<'a> Model for Program<'a> {
    ghost use Rattle.cqp_grammar.specs.Trees.{ProgramTree};
    ghost use Rattle.cqp_program.specs.Programs.{ProgramLists, IsProgramListing};

    ghost Value = { ProgramLists };

    ghost view = { λ p. record { defs = p.defs; main = p.main } };

    ghost invariant = { λ p. (t : ProgramTree)
        × IsProgramListing (record { defs = p.defs; main = p.main }) t };
}

/// A definition. `at` is the offset of its name.
#[derive(Debug, Drop)]
pub struct Def<'a> {
    pub name: NameText<'a>,
    pub at: u32,
    pub params: Params<'a>,
    pub body: Tree<'a>,
}

/// A parameter of a definition or of an input. `at` is the offset of its name.
#[derive(Debug, Drop)]
pub struct Param<'a> {
    pub name: NameText<'a>,
    pub at: u32,
    pub ty: TyTree,
}

/// A name where it stands. `at` is its offset.
#[derive(Debug, Drop)]
pub struct Occ<'a> {
    pub name: NameText<'a>,
    pub at: u32,
}

/// A type: its parts in preorder, number 0 the root, so that a type's parts have greater numbers.
#[derive(Debug, Drop)]
pub struct TyTree {
    pub nodes: Types,
}

/// A list of definitions.
pub type Defs<'a> = List<Def<'a>>;

/// A list of parameters.
pub type Params<'a> = List<Param<'a>>;

/// A list of names.
pub type Occs<'a> = List<Occ<'a>>;
