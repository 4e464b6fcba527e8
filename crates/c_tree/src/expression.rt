//! Kinds of expressions. Clauses are those of ISO 9899:1990.

use crate::operator::{AssignOp, BinaryOp, UnaryOp};
use crate::place::Place;
use crate::token::Token;
use crate::tree::{Tree, Trees};

/// Primary expressions (6.3.1).
#[cycle(tree)]
#[derive(Clone, Copy)]
pub enum Primary<'a> {
    /// A name.
    Ident {
        name: &'a Token,
    },
    /// An integer, floating or character constant (6.1.3), told apart by its token.
    Constant {
        token: &'a Token,
    },
    /// One or more adjacent string literals (6.1.4).
    StrConst {
        literals: &'a [Token],
    },
    /// `(inner)`, which comparing and matching see through.
    Paren {
        inner: &'a Tree<'a>,
    },
    /// `__builtin_va_arg(list, of)`; `of` is a type name.
    VaArg {
        list: &'a Tree<'a>,
        of: &'a Tree<'a>,
    },
    /// `__builtin_offsetof(of, member path)`; `of` is a type name, the path a list of designators.
    Offsetof {
        of: &'a Tree<'a>,
        member: &'a Token,
        path: Trees<'a>,
    },
    /// A hole of a pattern, by its number. It stands in patterns alone and has no token of C.
    Hole {
        number: u8,
    },
}

/// Operators on operands (6.3.2 to 6.3.17).
#[cycle(tree)]
#[derive(Clone, Copy)]
pub enum Operation<'a> {
    /// `array[index]`
    Index {
        array: &'a Tree<'a>,
        index: &'a Tree<'a>,
    },
    /// `callee(arguments)`; `open` is the place of the parenthesis.
    Call {
        callee: &'a Tree<'a>,
        open: Place,
        arguments: Trees<'a>,
    },
    /// `operand.member`
    Member {
        operand: &'a Tree<'a>,
        member: &'a Token,
    },
    /// `operand->member`
    Arrow {
        operand: &'a Tree<'a>,
        member: &'a Token,
    },
    /// `(of){ .. }` (ISO 9899:1999, 6.5.2.5); `of` is a type name.
    CompoundLit {
        of: &'a Tree<'a>,
        braces: &'a Tree<'a>,
    },
    /// An operator before or behind its operand.
    Unary {
        op: UnaryOp,
        operand: &'a Tree<'a>,
    },
    /// `sizeof(of)`; `of` is a type name.
    SizeofType {
        of: &'a Tree<'a>,
    },
    /// `(to)operand`; `to` is a type name.
    Cast {
        to: &'a Tree<'a>,
        operand: &'a Tree<'a>,
    },
    /// `left op right`
    Binary {
        op: BinaryOp,
        left: &'a Tree<'a>,
        right: &'a Tree<'a>,
    },
    /// `condition ? then : otherwise`
    Cond {
        condition: &'a Tree<'a>,
        then: &'a Tree<'a>,
        otherwise: &'a Tree<'a>,
    },
    /// `left op right`, which assigns
    Assign {
        op: AssignOp,
        left: &'a Tree<'a>,
        right: &'a Tree<'a>,
    },
}
