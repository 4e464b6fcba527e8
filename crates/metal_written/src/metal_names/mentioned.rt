//! Whether a name stands in a pattern, as a value or a callee.

ghost use Rattle.std.specs.Prelude.{◌≡◌};
ghost use Rattle.c_tree.specs.Forget.{view, list_view, primary_view, operation_view, initializer_view};
ghost use Rattle.metal_grammar.specs.Patterns.{name_alone, names_in, names_in_primary, names_in_operation, names_in_initializer, names_in_all, names_in_path, names_in_designator};
ghost use Rattle.metal_grammar.specs.Rules.{is_among};
ghost use Rattle.c_tree.specs.Symbol.{symbol_of};

use c_tree::{Initializer, Kind, Operation, Part, Primary, Token, TokenKind, Tree, Trees};

/// Whether the token is the word with this name.
fn is_word(token: &Token, name: u32) -> bool
    ensures { result ≡ is_among (name_alone (symbol_of token.now)) name }
{
    match token.kind {
        TokenKind::Word(_) => token.name == name,
        _ => false,
    }
}

/// Whether the name stands in an expression.
#[cycle(mentions)]
#[tactic(auto, using(crate::proofs::Nodes::mentioned))]
pub fn mentions(tree: &Tree, name: u32) -> bool
    ensures { result ≡ is_among (names_in (view tree.now)) name }
{
    match &tree.kind {
        Kind::Primary(kind) => primary_mentions(kind, name),
        Kind::Operation(kind) => operation_mentions(kind, name),
        Kind::Initializer(kind) => initializer_mentions(kind, name),
        _ => false,
    }
}

#[cycle(mentions)]
#[tactic(auto, using(crate::proofs::Nodes::mentioned))]
fn primary_mentions(kind: &Primary, name: u32) -> bool
    ensures { result ≡ is_among (names_in_primary (primary_view kind.now)) name }
{
    match kind {
        Primary::Ident { name: token } => is_word(token, name),
        Primary::Paren { inner } => mentions(inner, name),
        Primary::VaArg { list, .. } => mentions(list, name),
        Primary::Offsetof { path, .. } => path_mentions(path, name),
        _ => false,
    }
}

#[cycle(mentions)]
#[tactic(auto, using(crate::proofs::Nodes::mentioned))]
fn operation_mentions(kind: &Operation, name: u32) -> bool
    ensures { result ≡ is_among (names_in_operation (operation_view kind.now)) name }
{
    match kind {
        Operation::Index { array, index } => mentions(array, name) || mentions(index, name),
        Operation::Call {
            callee,
            arguments,
            ..
        } => mentions(callee, name) || one_mentions(arguments, name),
        Operation::Member { operand, .. }
        | Operation::Arrow { operand, .. }
        | Operation::Unary { operand, .. }
        | Operation::Cast { operand, .. } => mentions(operand, name),
        Operation::CompoundLit { braces, .. } => mentions(braces, name),
        Operation::SizeofType { .. } => false,
        Operation::Binary { left, right, .. } | Operation::Assign { left, right, .. } => mentions(
            left, name,
        ) || mentions(right, name),
        Operation::Cond {
            condition,
            then,
            otherwise,
        } => mentions(condition, name) || mentions(then, name) || mentions(otherwise, name),
    }
}

#[cycle(mentions)]
#[tactic(auto, using(crate::proofs::Nodes::mentioned))]
fn initializer_mentions(kind: &Initializer, name: u32) -> bool
    ensures { result ≡ is_among (names_in_initializer (initializer_view kind.now)) name }
{
    match kind {
        Initializer::Braces { elements, .. } => one_mentions(elements, name),
        Initializer::Designated {
            designators,
            initial,
        } => path_mentions(designators, name) || mentions(initial, name),
        _ => false,
    }
}

#[cycle(mentions)]
#[tactic(auto, using(crate::proofs::Nodes::mentioned))]
fn one_mentions(trees: &Trees, name: u32) -> bool
    ensures { result ≡ is_among (names_in_all (list_view trees.now)) name }
{
    for tree in trees.all {
        if mentions(tree, name) {
            return true;
        }
    }
    false
}

#[cycle(mentions)]
#[tactic(auto, using(crate::proofs::Nodes::mentioned))]
fn path_mentions(path: &Trees, name: u32) -> bool
    ensures { result ≡ is_among (names_in_path (list_view path.now)) name }
{
    for designator in path.all {
        if designator_mentions(designator, name) {
            return true;
        }
    }
    false
}

#[cycle(mentions)]
#[tactic(auto, using(crate::proofs::Nodes::mentioned))]
fn designator_mentions(tree: &Tree, name: u32) -> bool
    ensures { result ≡ is_among (names_in_designator (view tree.now)) name }
{
    match &tree.kind {
        Kind::Part(part) => match part {
            Part::IndexDesignator { index } => mentions(index, name),
            _ => false,
        },
        _ => false,
    }
}
