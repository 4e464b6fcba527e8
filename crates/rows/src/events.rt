//! Events as words.

use c_tree::{BinaryOp, Initializer, Kind, Operation, Place, Primary, Subject, Tree, UnaryOp};
use flow_graph::Event;
use mx_base::Names;
use std::alloc::AllocError;

/// The place of a function's closing brace in these rows.
pub fn close() -> Place {
    Place { file: 7, token: 0 }
}

fn unary_word(op: UnaryOp) -> &'static str {
    match op {
        UnaryOp::PostInc | UnaryOp::PreInc => "++",
        UnaryOp::PostDec | UnaryOp::PreDec => "--",
        UnaryOp::AddressOf => "&",
        UnaryOp::Deref => "*",
        UnaryOp::Plus => "+",
        UnaryOp::Minus => "-",
        UnaryOp::BitNot => "~",
        UnaryOp::Not => "!",
        UnaryOp::Sizeof => "sizeof",
    }
}

fn binary_word(op: BinaryOp) -> &'static str {
    match op {
        BinaryOp::LogAnd => "&&",
        BinaryOp::LogOr => "||",
        BinaryOp::Comma => ",",
        BinaryOp::Equal => "==",
        BinaryOp::NotEqual => "!=",
        BinaryOp::Less => "<",
        _ => "op",
    }
}

fn operation_word(operation: &Operation) -> &'static str {
    match operation {
        Operation::Index { .. } => "[]",
        Operation::Call { .. } => "()",
        Operation::Member { .. } => ".",
        Operation::Arrow { .. } => "->",
        Operation::CompoundLit { .. } => "literal",
        Operation::Unary { op, .. } => unary_word(*op),
        Operation::SizeofType { .. } => "sizeof",
        Operation::Cast { .. } => "cast",
        Operation::Binary { op, .. } => binary_word(*op),
        Operation::Cond { .. } => "?",
        Operation::Assign { .. } => "=",
    }
}

/// The outermost word of a tree, so that a list of evaluated trees is in postfix form.
fn word_of<'n>(tree: &Tree, names: &'n Names) -> &'n [u8] {
    match &tree.kind {
        Kind::Primary(Primary::Ident { name: token } | Primary::Constant { token }) => if token.name
            < names.len()
        {
            names.text_of(token.name)
        } else {
            b"name"
        },
        Kind::Primary(_) => b"primary",
        Kind::Operation(operation) => operation_word(operation).as_bytes(),
        Kind::Initializer(Initializer::Init { .. }) => b"init",
        Kind::Initializer(_) => b"initial",
        _ => b"other",
    }
}

/// Puts an event behind others.
pub fn write_event(event: Event, names: &Names, text: &mut Vec<u8>) -> Result<(), AllocError> {
    if !text.is_empty() {
        text.push(b' ')?;
    }
    match event {
        Event::Node(Subject::Tree(tree)) => text.extend_from_slice(word_of(tree, names))?,
        Event::Node(Subject::DerefOf(_)) => text.push(b'*')?,
        Event::Declare(_) => text.extend_from_slice(b"var")?,
        Event::Branch(tree, truth) => {
            text.extend_from_slice(word_of(tree, names))?;
            text.extend_from_slice(if truth { b":1" } else { b":0" })?;
        }
        Event::Exit { place, .. } => {
            text.extend_from_slice(if place == close() { b"}" } else { b"return" })?;
        }
    }
    Ok(())
}
