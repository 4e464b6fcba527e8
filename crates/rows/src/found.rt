//! The trees that rows ask about: the last expression and the last declarator of a unit.

use c_tree::{Initializer, Kind, Operation, Outer, Primary, Statement, Tree};
use typed_unit::TypedUnit;

/// What stands in the body of the last function.
pub fn last_body<'a>(typed: &TypedUnit<'a>) -> Option<&'a [Tree<'a>]> {
    let Some(last) = typed.unit.chunks.all.last() else {
        return None;
    };
    let Kind::Outer(Outer::Function { body, .. }) = &last.kind else {
        return None;
    };
    match &body.kind {
        Kind::Statement(Statement::Block { items }) => Some(items.all),
        _ => None,
    }
}

/// The expression of the last of these statements, however deep in blocks it stands.
fn expression_in<'a>(items: &'a [Tree<'a>]) -> Option<&'a Tree<'a>> {
    let Some(last) = items.last() else {
        return None;
    };
    match &last.kind {
        Kind::Statement(Statement::Block { items }) => expression_in(items.all),
        Kind::Statement(Statement::ExprStmt { value }) => *value,
        _ => None,
    }
}

/// The expression of the last statement of the last function.
pub fn last_expression<'a>(typed: &TypedUnit<'a>) -> Option<&'a Tree<'a>> {
    match last_body(typed) {
        Some(items) => expression_in(items),
        None => None,
    }
}

/// The type name in the expression of the last statement, if that is one with a type name.
pub fn last_type_name<'a>(typed: &TypedUnit<'a>) -> Option<&'a Tree<'a>> {
    let Some(expression) = last_expression(typed) else {
        return None;
    };
    match &expression.kind {
        Kind::Operation(Operation::Cast { to, .. }) => Some(*to),
        Kind::Operation(Operation::SizeofType { of }) => Some(*of),
        Kind::Primary(Primary::VaArg { of, .. }) => Some(*of),
        _ => None,
    }
}

/// The last declarator of a declaration, with its initializer if it has one.
fn declared_in<'a>(declaration: &Tree<'a>) -> Option<&'a Tree<'a>> {
    match &declaration.kind {
        Kind::Outer(Outer::Declaration { declarators, .. }) => declarators.all.last(),
        _ => None,
    }
}

/// The last declarator of the last of these, if that is a declaration.
fn last_declared_in<'a>(items: &'a [Tree<'a>]) -> Option<&'a Tree<'a>> {
    match items.last() {
        Some(item) => declared_in(item),
        None => None,
    }
}

/// The last declarator of the last declaration of the unit, or of what stands last in the body of its last function. It has its
/// initializer if there is one.
fn last_declared<'a>(typed: &TypedUnit<'a>) -> Option<&'a Tree<'a>> {
    let Some(last) = typed.unit.chunks.all.last() else {
        return None;
    };
    match &last.kind {
        Kind::Outer(Outer::Function { .. }) => match last_body(typed) {
            Some(items) => last_declared_in(items),
            None => None,
        },
        _ => declared_in(last),
    }
}

/// The same without its initializer.
pub fn last_declarator<'a>(typed: &TypedUnit<'a>) -> Option<&'a Tree<'a>> {
    let Some(declared) = last_declared(typed) else {
        return None;
    };
    match &declared.kind {
        Kind::Initializer(Initializer::Init { declarator, .. }) => Some(*declarator),
        _ => Some(declared),
    }
}

/// The same with its initializer, and the name in it.
pub fn last_initialized<'a>(typed: &TypedUnit<'a>) -> Option<(&'a Tree<'a>, &'a Tree<'a>)> {
    let Some(declared) = last_declared(typed) else {
        return None;
    };
    match &declared.kind {
        Kind::Initializer(Initializer::Init { name, .. }) => Some((declared, *name)),
        _ => None,
    }
}
