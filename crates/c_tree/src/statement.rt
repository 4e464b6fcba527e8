//! Kinds of statements. Clauses are those of ISO 9899:1990.

use crate::token::Token;
use crate::tree::{Tree, Trees};

/// Labeled, compound, expression and selection statements (6.6.1 to 6.6.4).
#[cycle(tree)]
#[derive(Clone, Copy)]
pub enum Statement<'a> {
    /// `{ items }`, declarations and statements.
    Block {
        items: Trees<'a>,
    },
    /// `value;` or `;`
    ExprStmt {
        value: Option<&'a Tree<'a>>,
    },
    /// `if (condition) then else otherwise`
    If {
        condition: &'a Tree<'a>,
        then: &'a Tree<'a>,
        otherwise: Option<&'a Tree<'a>>,
    },
    /// `switch (value) body`
    Switch {
        value: &'a Tree<'a>,
        body: &'a Tree<'a>,
    },
    /// `case value: body`
    Case {
        value: &'a Tree<'a>,
        body: &'a Tree<'a>,
    },
    /// `default: body`
    Default {
        body: &'a Tree<'a>,
    },
    /// `label: body`
    Label {
        label: &'a Token,
        body: &'a Tree<'a>,
    },
}

/// Iteration statements (6.6.5).
#[cycle(tree)]
#[derive(Clone, Copy)]
pub enum Iteration<'a> {
    /// `while (condition) body`
    While {
        condition: &'a Tree<'a>,
        body: &'a Tree<'a>,
    },
    /// `do body while (condition);`
    Do {
        body: &'a Tree<'a>,
        condition: &'a Tree<'a>,
    },
    /// `for (first; condition; step) body`
    For {
        first: Option<&'a Tree<'a>>,
        condition: Option<&'a Tree<'a>>,
        step: Option<&'a Tree<'a>>,
        body: &'a Tree<'a>,
    },
    /// `for (declaration condition; step) body` (ISO 9899:1999, 6.8.5).
    ForDeclaration {
        declaration: &'a Tree<'a>,
        condition: Option<&'a Tree<'a>>,
        step: Option<&'a Tree<'a>>,
        body: &'a Tree<'a>,
    },
}

/// Jump statements (6.6.6).
#[cycle(tree)]
#[derive(Clone, Copy)]
pub enum Jump<'a> {
    /// `goto label;`
    Goto { label: &'a Token },
    /// `continue;`
    Continue,
    /// `break;`
    Break,
    /// `return value;` or `return;`
    Return { value: Option<&'a Tree<'a>> },
}
