//! Syntax trees of C. A tree stands in an arena and lives as long as it.

ghost use Rattle.std.specs.Prelude.{◌≡◌};

use crate::declaration::{Declarator, Initializer, Outer, Part, Specifier};
use crate::expression::{Operation, Primary};
use crate::place::Place;
use crate::statement::{Iteration, Jump, Statement};
use bumpalo::Bump;
use std::alloc::Global;

/// The memory in which trees stand.
pub type Arena = Bump<Global>;

/// A node of a tree.
#[cycle(tree)]
#[derive(Clone, Copy)]
pub struct Tree<'a> {
    /// Its number among the nodes of one unit.
    pub id: u32,
    /// The place of its first token.
    pub first: Place,
    pub kind: Kind<'a>,
}

/// Nodes side by side: a repeated part of a line of the grammar.
#[cycle(tree)]
#[derive(Clone, Copy)]
pub struct Trees<'a> {
    pub all: &'a [Tree<'a>],
}

/// What a node is. A kind has a field for each part of its line of the grammar that is no fixed token, in that order.
#[cycle(tree)]
#[derive(Clone, Copy)]
pub enum Kind<'a> {
    Primary(Primary<'a>),
    Operation(Operation<'a>),
    Initializer(Initializer<'a>),
    Specifier(Specifier<'a>),
    Declarator(Declarator<'a>),
    Part(Part<'a>),
    Outer(Outer<'a>),
    Statement(Statement<'a>),
    Iteration(Iteration<'a>),
    Jump(Jump<'a>),
}

/// The place of the first token.
pub fn first_token(tree: &Tree) -> Place
    ensures { result ≡ tree.now.first }
{
    tree.first
}
