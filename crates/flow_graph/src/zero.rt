//! The constant zero.

ghost use Rattle.std.specs.Prelude.{◌≡◌};
ghost use Rattle.c_tree.specs.Views.{node_of};
ghost use Rattle.flow_graph.specs.CPaths.TreeForms.{is_zero_kind, is_zero};

use c_tree::{Kind, Operation, Primary, TokenKind, Tree};

/// Whether a constant is the integer zero, with whatever suffix (ISO 9899:1990, 6.1.3.2). A character constant is none.
fn is_zero_kind(kind: TokenKind) -> bool
    ensures { result ≡ is_zero_kind kind }
{
    match kind {
        TokenKind::Int { value, .. } => value == 0,
        _ => false,
    }
}

/// Whether the tree is the integer constant zero, under any parentheses and casts.
pub(crate) fn is_zero(tree: &Tree) -> bool
    ensures { result ≡ is_zero (node_of tree.now) }
{
    match &tree.kind {
        Kind::Primary(Primary::Constant { token }) => is_zero_kind(token.kind),
        Kind::Primary(Primary::Paren { inner }) => is_zero(inner),
        Kind::Operation(Operation::Cast { operand, .. }) => is_zero(operand),
        _ => false,
    }
}
