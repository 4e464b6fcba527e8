//! Where holes stand in patterns. Parentheses are seen through.

ghost use Rattle.std.specs.Prelude.{◌≡◌, ◌<◌, ◌+◌, cond, nat_eq};
ghost use Rattle.c_tree.specs.Forget.{view, list_view, primary_view, operation_view, initializer_view};
ghost use Rattle.metal_grammar.specs.Grammar.{Before as BeforeClause};
ghost use Rattle.metal_grammar.specs.Holes.{Operand, LastArgument, name_may_stand, are_placed, are_placed_in_primary, are_placed_in_operation, are_placed_in_initializer, are_placed_in_elements, are_placed_in_arguments, are_placed_in_path, are_placed_in_designator};
ghost use Rattle.metal_forms.specs.Before.{Knows};
ghost use Rattle.metal_written.specs.Kinds.{position_of};
ghost use Rattle.c_tree.specs.Symbol.{symbol_of};

use crate::before::Before;
use c_tree::{Initializer, Kind, Operation, Part, Primary, Token, TokenKind, Tree, Trees};
use metal_written::{Position, may_stand};

/// Whether a name, if it is a hole, may stand there.
fn name_may_stand(before: &Before, position: Position, name: &Token) -> bool
    ensures { (b : BeforeClause) → Knows before.now b → result ≡ name_may_stand b.holes (position_of position) (symbol_of name.now) }
{
    match name.kind {
        TokenKind::Word(_) => may_stand(position, before.seat(name.name)),
        _ => true,
    }
}

/// Where the argument with this index stands among so many.
fn position_at(index: usize, count: usize) -> Position
    requires { index < count }
    ensures { position_of result ≡ cond (nat_eq (index + 1) count) LastArgument Operand }
{
    if index + 1 == count {
        Position::LastArgument
    } else {
        Position::Operand
    }
}

/// Whether each hole of an expression stands where it may.
#[cycle(placed)]
#[tactic(auto, using(metal_written::proofs::Nodes::lists))]
pub(crate) fn are_placed(before: &Before, position: Position, tree: &Tree) -> bool
    ensures { (b : BeforeClause) → Knows before.now b → result ≡ are_placed b.holes (position_of position) (view tree.now) }
{
    match &tree.kind {
        Kind::Primary(kind) => are_placed_in_primary(before, position, kind),
        Kind::Operation(kind) => are_placed_in_operation(before, kind),
        Kind::Initializer(kind) => are_placed_in_initializer(before, kind),
        _ => true,
    }
}

#[cycle(placed)]
#[tactic(auto, using(metal_written::proofs::Nodes::lists))]
fn are_placed_in_primary(before: &Before, position: Position, kind: &Primary) -> bool
    ensures { (b : BeforeClause) → Knows before.now b → result ≡ are_placed_in_primary b.holes (position_of position) (primary_view kind.now) }
{
    match kind {
        Primary::Ident { name } => name_may_stand(before, position, name),
        Primary::Paren { inner } => are_placed(before, position, inner),
        Primary::VaArg { list, .. } => is_operand(before, list),
        Primary::Offsetof { path, .. } => are_placed_in_path(before, path),
        _ => true,
    }
}

#[cycle(placed)]
#[tactic(auto, using(metal_written::proofs::Nodes::lists))]
fn are_placed_in_operation(before: &Before, kind: &Operation) -> bool
    ensures { (b : BeforeClause) → Knows before.now b → result ≡ are_placed_in_operation b.holes (operation_view kind.now) }
{
    match kind {
        Operation::Index { array, index } => is_operand(before, array) && is_operand(before, index),
        Operation::Call {
            callee,
            arguments,
            ..
        } => are_placed(before, Position::Callee, callee)
            && are_placed_in_arguments(before, arguments),
        Operation::Member { operand, .. }
        | Operation::Arrow { operand, .. }
        | Operation::Unary { operand, .. }
        | Operation::Cast { operand, .. } => is_operand(before, operand),
        Operation::CompoundLit { braces, .. } => is_operand(before, braces),
        Operation::SizeofType { .. } => true,
        Operation::Binary { left, right, .. } | Operation::Assign { left, right, .. } => is_operand(
            before, left,
        ) && is_operand(before, right),
        Operation::Cond {
            condition,
            then,
            otherwise,
        } => is_operand(before, condition)
            && is_operand(before, then)
            && is_operand(before, otherwise),
    }
}

#[cycle(placed)]
#[tactic(auto, using(metal_written::proofs::Nodes::lists))]
fn are_placed_in_initializer(before: &Before, kind: &Initializer) -> bool
    ensures { (b : BeforeClause) → Knows before.now b → result ≡ are_placed_in_initializer b.holes (initializer_view kind.now) }
{
    match kind {
        Initializer::Braces { elements, .. } => are_placed_in_elements(before, elements),
        Initializer::Designated {
            designators,
            initial,
        } => are_placed_in_path(before, designators) && is_operand(before, initial),
        _ => true,
    }
}

#[cycle(placed)]
#[tactic(auto, using(metal_written::proofs::Nodes::lists))]
fn is_operand(before: &Before, tree: &Tree) -> bool
    ensures { (b : BeforeClause) → Knows before.now b → result ≡ are_placed b.holes Operand (view tree.now) }
{
    are_placed(before, Position::Operand, tree)
}

#[cycle(placed)]
#[tactic(auto, using(metal_written::proofs::Nodes::lists))]
fn are_placed_in_elements(before: &Before, elements: &Trees) -> bool
    ensures { (b : BeforeClause) → Knows before.now b → result ≡ are_placed_in_elements b.holes (list_view elements.now) }
{
    for element in elements.all {
        if !is_operand(before, element) {
            return false;
        }
    }
    true
}

/// A hole for arguments may be the last of them.
#[cycle(placed)]
#[tactic(auto, using(metal_written::proofs::Nodes::lists))]
fn are_placed_in_arguments(before: &Before, arguments: &Trees) -> bool
    ensures { (b : BeforeClause) → Knows before.now b → result ≡ are_placed_in_arguments b.holes (list_view arguments.now) }
{
    let mut index = 0;
    while index < arguments.all.len() {
        let position = position_at(index, arguments.all.len());
        if !are_placed(before, position, &arguments.all[index]) {
            return false;
        }
        index += 1;
    }
    true
}

#[cycle(placed)]
#[tactic(auto, using(metal_written::proofs::Nodes::lists))]
fn are_placed_in_path(before: &Before, path: &Trees) -> bool
    ensures { (b : BeforeClause) → Knows before.now b → result ≡ are_placed_in_path b.holes (list_view path.now) }
{
    for designator in path.all {
        if !are_placed_in_designator(before, designator) {
            return false;
        }
    }
    true
}

#[cycle(placed)]
#[tactic(auto, using(metal_written::proofs::Nodes::lists))]
fn are_placed_in_designator(before: &Before, tree: &Tree) -> bool
    ensures { (b : BeforeClause) → Knows before.now b → result ≡ are_placed_in_designator b.holes (view tree.now) }
{
    match &tree.kind {
        Kind::Part(part) => match part {
            Part::IndexDesignator { index } => is_operand(before, index),
            _ => true,
        },
        _ => true,
    }
}
