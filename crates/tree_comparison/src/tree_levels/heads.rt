//! Trees as matching and comparing see them, level by level: the head of a tree and its parts. `x->f` is `(*x).f` (ISO
//! 9899:1990, 6.3.2.3), and a name with an initializer that isn't braced an assignment to the name (6.5.7). Names and spellings
//! are numbers of the table of names.

use c_tree::{AssignOp, BinaryOp, Subject, Token, Tree, Trees, UnaryOp};
use type_values::Ty;

/// A head without parts.
#[derive(Clone, Copy)]
pub enum Leaf<'a> {
    Identifier(u32),
    /// An integer constant, by its value.
    Integer(u64),
    /// Another constant, by its spelling.
    Spelled(u32),
    Strings(&'a [Token]),
    /// A type name, by its type.
    TypeName(Ty<'a>),
    MemberDesignator(u32),
}

/// A head with one part.
#[derive(Clone, Copy)]
pub enum One {
    Member(u32),
    Unary(UnaryOp),
    SizeofType,
    IndexDesignator,
}

/// A head with two parts.
#[derive(Clone, Copy)]
pub enum Two {
    VaArg,
    Index,
    CompoundLit,
    Cast,
    Binary(BinaryOp),
    Assign(AssignOp),
}

/// A head with one part and a list behind it.
#[derive(Clone, Copy)]
pub enum Front {
    Call,
    Offsetof(u32),
}

/// The level of a subject that isn't in parentheses.
#[derive(Clone, Copy)]
pub enum Level<'a> {
    Leaf(Leaf<'a>),
    One(One, Subject<'a>),
    Two(Two, &'a Tree<'a>, &'a Tree<'a>),
    /// `first ? second : third`
    Cond(&'a Tree<'a>, &'a Tree<'a>, &'a Tree<'a>),
    Front(Front, &'a Tree<'a>, Trees<'a>),
    Braces(Trees<'a>),
    /// An initial value behind its designators.
    Designated(Trees<'a>, &'a Tree<'a>),
    /// What no pattern matches.
    Other,
}
