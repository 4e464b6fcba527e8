//! Reads expressions from their operators inward (ISO 9899:1990, 6.3.3 to 6.3.17).

ghost use Rattle.std.specs.Prelude.{◌≡◌, ◌+◌, ◌-◌, ◌*◌, ◌<◌, ◌≤◌, ◌^◌, List, length, IfSome};
ghost use Rattle.std.specs.Option.{option_map};
ghost use Rattle.c_tree.specs.Symbol.{Sign, Reserved, symbols_of};
ghost use Rattle.c_tree.specs.Syntax as kinds;
ghost use Rattle.c_tree.specs.Height.{height_of};
ghost use Rattle.c_tree.specs.Forget.{view};
ghost use Rattle.c_grammar.specs.Ways.ExpressionSteps as steps;
ghost use Rattle.c_grammar.specs.Nonterminal.{Expression};
ghost use Rattle.c_grammar.specs.Found.{made};
ghost use Rattle.c_grammar.specs.Reading.{read};
ghost use Rattle.c_tree.specs.declared.keyword.Keyword.TheVariants as words;
ghost use Rattle.c_tree.specs.declared.punctuator.Punctuator.TheVariants as marks;
ghost use Rattle.c_tree.specs.declared.token.Token.{Token};
ghost use Rattle.c_tree.specs.Node as nodes;
ghost use Rattle.c_tree.specs.Views.{node_of};
ghost use Rattle.c_expr.specs.Standing.{Makes, Over, OverBehind, Passes, IsFirst};
ghost use Rattle.c_expr.specs.Gives.{Gives, AsBefore, left, Spends};

use crate::fault::ExprFault;
use crate::nodes::{Read, node};
use crate::operators::{
    ASSIGNMENT_LEVEL, CAST_LEVEL, COMMA_LEVEL, CONDITIONAL_LEVEL, UNARY_LEVEL, grade,
    operand_level, take_assign, take_binary, take_prefix,
};
use crate::postfix::read_postfix;
use crate::specifier_words::begins_specifiers;
use crate::symbols::{after_keyword, after_sign, place_of};
use crate::types::type_name_in_front;
use c_grammar::TypeNames;
use c_tree::{
    Arena, AssignOp, BinaryOp, Keyword, Kind, Operation, Place, Punctuator, Token, UnaryOp,
};

/// What follows a parenthesis behind which a type name begins.
fn after_type_paren<'a>(names: &TypeNames, tokens: &'a [Token]) -> Option<&'a [Token]>
    ensures found { option_map (λ rest. symbols_of rest.now) result ≡ steps.after_type_paren names.now.now (symbols_of tokens.now) }
    ensures passes { IfSome result (λ rest. Passes (Sign marks.OpenParen) tokens.now rest.now) }
    ensures shorter { IfSome result (λ rest. length rest.now + 1 ≡ length tokens.now) }
{
    let inside = after_sign(Punctuator::OpenParen, tokens)?;
    if begins_specifiers(names, inside) {
        Some(inside)
    } else {
        None
    }
}

/// An operator with its operand, in front of `rest`.
pub(crate) fn unary_of<'a>(
    arena: &'a Arena,
    op: UnaryOp,
    first: Place,
    operand: Read<'a>,
    rest: &'a [Token],
    room: u32,
    next: &mut u32,
) -> Result<Read<'a>, ExprFault>
    requires height { operand.height ≡ height_of (view operand.tree.now) }
    requires ids { next.old + 1 < 2 ^ 32 }
    ensures found { Gives result (made room (kinds.Operation (kinds.Unary op (view operand.entry.tree.now))) (symbols_of rest.now)) }
    ensures node { Makes result next.old next.new first (nodes.Operation (nodes.Unary op (node_of operand.entry.tree.now))) rest.now }
    ensures ids { (next.old ≤ next.new) × (next.new ≤ next.old + 1) × (left result ≤ length rest.now) }
{
    let kind = Kind::Operation(Operation::Unary {
        op,
        operand: operand.tree,
    });
    node(arena, kind, first, operand.height, rest, room, next)
}

/// A cast of its operand.
fn cast_of<'a>(
    arena: &'a Arena,
    first: Place,
    to: Read<'a>,
    operand: Read<'a>,
    room: u32,
    next: &mut u32,
) -> Result<Read<'a>, ExprFault>
    requires to { to.height ≡ height_of (view to.tree.now) }
    requires operand { operand.height ≡ height_of (view operand.tree.now) }
    requires ids { next.old + 1 < 2 ^ 32 }
    ensures found { Gives result (made room (kinds.Operation (kinds.Cast (view to.entry.tree.now) (view operand.entry.tree.now))) (symbols_of operand.entry.rest.now)) }
    ensures node { Makes result next.old next.new first (nodes.Operation (nodes.Cast (node_of to.entry.tree.now) (node_of operand.entry.tree.now))) operand.entry.rest.now }
    ensures ids { (next.old ≤ next.new) × (next.new ≤ next.old + 1) × (left result ≤ length operand.entry.rest.now) }
{
    let highest = to.height.max(operand.height);
    let kind = Kind::Operation(Operation::Cast {
        to: to.tree,
        operand: operand.tree,
    });
    node(arena, kind, first, highest, operand.rest, room, next)
}

/// Two operands with their operator.
fn binary_of<'a>(
    arena: &'a Arena,
    op: BinaryOp,
    before: Read<'a>,
    right: Read<'a>,
    room: u32,
    next: &mut u32,
) -> Result<Read<'a>, ExprFault>
    requires before { before.height ≡ height_of (view before.tree.now) }
    requires right { right.height ≡ height_of (view right.tree.now) }
    requires ids { next.old + 1 < 2 ^ 32 }
    ensures found { Gives result (made room (kinds.Operation (kinds.Binary op (view before.entry.tree.now) (view right.entry.tree.now))) (symbols_of right.entry.rest.now)) }
    ensures node { Makes result next.old next.new before.entry.tree.now.first (nodes.Operation (nodes.Binary op (node_of before.entry.tree.now) (node_of right.entry.tree.now))) right.entry.rest.now }
    ensures ids { (next.old ≤ next.new) × (next.new ≤ next.old + 1) × (left result ≤ length right.entry.rest.now) }
{
    let highest = before.height.max(right.height);
    let kind = Kind::Operation(Operation::Binary {
        op,
        left: before.tree,
        right: right.tree,
    });
    node(
        arena,
        kind,
        before.tree.first,
        highest,
        right.rest,
        room,
        next,
    )
}

/// An assignment.
fn assignment_of<'a>(
    arena: &'a Arena,
    op: AssignOp,
    to: Read<'a>,
    value: Read<'a>,
    room: u32,
    next: &mut u32,
) -> Result<Read<'a>, ExprFault>
    requires to { to.height ≡ height_of (view to.tree.now) }
    requires value { value.height ≡ height_of (view value.tree.now) }
    requires ids { next.old + 1 < 2 ^ 32 }
    ensures found { Gives result (made room (kinds.Operation (kinds.Assign op (view to.entry.tree.now) (view value.entry.tree.now))) (symbols_of value.entry.rest.now)) }
    ensures node { Makes result next.old next.new to.entry.tree.now.first (nodes.Operation (nodes.Assign op (node_of to.entry.tree.now) (node_of value.entry.tree.now))) value.entry.rest.now }
    ensures ids { (next.old ≤ next.new) × (next.new ≤ next.old + 1) × (left result ≤ length value.entry.rest.now) }
{
    let highest = to.height.max(value.height);
    let kind = Kind::Operation(Operation::Assign {
        op,
        left: to.tree,
        right: value.tree,
    });
    node(arena, kind, to.tree.first, highest, value.rest, room, next)
}

/// A conditional expression.
fn conditional_of<'a>(
    arena: &'a Arena,
    condition: Read<'a>,
    then: Read<'a>,
    otherwise: Read<'a>,
    room: u32,
    next: &mut u32,
) -> Result<Read<'a>, ExprFault>
    requires condition { condition.height ≡ height_of (view condition.tree.now) }
    requires yes { then.height ≡ height_of (view then.tree.now) }
    requires no { otherwise.height ≡ height_of (view otherwise.tree.now) }
    requires ids { next.old + 1 < 2 ^ 32 }
    ensures found { Gives result (made room (kinds.Operation (kinds.Cond (view condition.entry.tree.now) (view then.entry.tree.now) (view otherwise.entry.tree.now))) (symbols_of otherwise.entry.rest.now)) }
    ensures node { Makes result next.old next.new condition.entry.tree.now.first (nodes.Operation (nodes.Cond (node_of condition.entry.tree.now) (node_of then.entry.tree.now) (node_of otherwise.entry.tree.now))) otherwise.entry.rest.now }
    ensures ids { (next.old ≤ next.new) × (next.new ≤ next.old + 1) × (left result ≤ length otherwise.entry.rest.now) }
{
    let highest = condition.height.max(then.height).max(otherwise.height);
    let kind = Kind::Operation(Operation::Cond {
        condition: condition.tree,
        then: then.tree,
        otherwise: otherwise.tree,
    });
    node(
        arena,
        kind,
        condition.tree.first,
        highest,
        otherwise.rest,
        room,
        next,
    )
}

/// The rest of `sizeof unary` or `sizeof (type name)` (6.3.3.4); `first` is the place of `sizeof`.
#[cycle(read)]
fn read_sizeof<'a>(
    arena: &'a Arena,
    first: Place,
    tokens: &'a [Token],
    names: &mut TypeNames,
    room: u32,
    next: &mut u32,
) -> Result<Read<'a>, ExprFault>
    requires positive { 0 < room }
    requires ids { next.old + 16 * length tokens.now + 1 < 2 ^ 32 }
    ensures found { Gives result (steps.read_sizeof (read (room - 1)) room names.old.now (symbols_of tokens.now)) }
    ensures stands { (ts : List Token) → IsFirst first ts → Passes (Reserved words.Sizeof) ts tokens.now → Over result next.old next.new ts }
    ensures names { AsBefore names.new names.old }
    ensures ids { (next.old ≤ next.new) × (next.new + 16 * left result ≤ next.old + 16 * length tokens.now + 1) }
{
    let Some(inside) = after_type_paren(names, tokens) else {
        let operand = expression_in_front(arena, UNARY_LEVEL, tokens, names, room - 1, next)?;
        return unary_of(
            arena,
            UnaryOp::Sizeof,
            first,
            operand,
            operand.rest,
            room,
            next,
        );
    };
    let of = type_name_in_front(arena, inside, names, room - 1, next)?;
    let Some(rest) = after_sign(Punctuator::CloseParen, of.rest) else {
        return Err(ExprFault::NoTree);
    };
    let kind = Kind::Operation(Operation::SizeofType { of: of.tree });
    node(arena, kind, first, of.height, rest, room, next)
}

/// A unary expression (6.3.3).
#[cycle(read)]
fn read_unary<'a>(
    arena: &'a Arena,
    tokens: &'a [Token],
    names: &mut TypeNames,
    room: u32,
    next: &mut u32,
) -> Result<Read<'a>, ExprFault>
    requires positive { 0 < room }
    requires ids { next.old + 16 * length tokens.now < 2 ^ 32 }
    ensures found { Gives result (steps.read_unary (read (room - 1)) room names.old.now (symbols_of tokens.now)) }
    ensures stands { Over result next.old next.new tokens.now }
    ensures names { AsBefore names.new names.old }
    ensures ids { Spends next.old next.new (length tokens.now) (left result) }
{
    let first = place_of(tokens);
    if let Some((op, rest)) = take_prefix(tokens) {
        let operand = expression_in_front(arena, operand_level(op), rest, names, room - 1, next)?;
        return unary_of(arena, op, first, operand, operand.rest, room, next);
    }
    if let Some(rest) = after_keyword(Keyword::Sizeof, tokens) {
        return read_sizeof(arena, first, rest, names, room, next);
    }
    read_postfix(arena, tokens, names, room, next)
}

/// A cast, or a unary expression (6.3.4).
#[cycle(read)]
fn read_cast<'a>(
    arena: &'a Arena,
    tokens: &'a [Token],
    names: &mut TypeNames,
    room: u32,
    next: &mut u32,
) -> Result<Read<'a>, ExprFault>
    requires positive { 0 < room }
    requires ids { next.old + 16 * length tokens.now < 2 ^ 32 }
    ensures found { Gives result (steps.read_cast (read (room - 1)) room names.old.now (symbols_of tokens.now)) }
    ensures stands { Over result next.old next.new tokens.now }
    ensures names { AsBefore names.new names.old }
    ensures ids { Spends next.old next.new (length tokens.now) (left result) }
{
    let Some(inside) = after_type_paren(names, tokens) else {
        return read_unary(arena, tokens, names, room, next);
    };
    let to = type_name_in_front(arena, inside, names, room - 1, next)?;
    let Some(rest) = after_sign(Punctuator::CloseParen, to.rest) else {
        return Err(ExprFault::NoTree);
    };
    let operand = expression_in_front(arena, CAST_LEVEL, rest, names, room - 1, next)?;
    cast_of(arena, place_of(tokens), to, operand, room, next)
}

/// The operators of one level behind the left operand, each with its right one.
#[tactic(auto, using(crate::proofs::Steps::chains))]
#[cycle(read)]
fn read_chain<'a>(
    arena: &'a Arena,
    level: u32,
    first: Read<'a>,
    names: &mut TypeNames,
    room: u32,
    next: &mut u32,
) -> Result<Read<'a>, ExprFault>
    requires positive { 0 < room }
    requires level { 0 < level }
    requires height { first.height ≡ height_of (view first.tree.now) }
    requires ids { next.old + 16 * length first.rest.now < 2 ^ 32 }
    ensures found { Gives result (steps.read_chain (read (room - 1)) room names.old.now level room (view first.entry.tree.now) (symbols_of first.entry.rest.now)) }
    ensures stands { OverBehind result (node_of first.entry.tree.now) next.old next.new first.entry.rest.now }
    ensures names { AsBefore names.new names.old }
    ensures ids { Spends next.old next.new (length first.entry.rest.now) (left result) }
{
    let mut before = first;
    let mut fuel = room;
    while let Some((op, rest)) = take_binary(level, before.rest) {
        if fuel == 0 {
            return Err(ExprFault::NoTree);
        }
        fuel -= 1;
        let right = expression_in_front(arena, level - 1, rest, names, room - 1, next)?;
        before = binary_of(arena, op, before, right, room, next)?;
    }
    Ok(before)
}

/// Casts, and the binary operators of so many levels above them (6.3.5 to 6.3.14).
#[tactic(auto, using(crate::proofs::Steps::levels))]
#[cycle(read)]
fn read_binary<'a>(
    arena: &'a Arena,
    levels: u32,
    tokens: &'a [Token],
    names: &mut TypeNames,
    room: u32,
    next: &mut u32,
) -> Result<Read<'a>, ExprFault>
    requires positive { 0 < room }
    requires levels { levels ≤ 10 }
    requires ids { next.old + 16 * length tokens.now < 2 ^ 32 }
    ensures found { Gives result (steps.read_binary (read (room - 1)) room names.old.now levels (symbols_of tokens.now)) }
    ensures stands { Over result next.old next.new tokens.now }
    ensures names { AsBefore names.new names.old }
    ensures ids { Spends next.old next.new (length tokens.now) (left result) }
{
    let mut before = read_cast(arena, tokens, names, room, next)?;
    for done in 0..levels {
        before = read_chain(arena, done + 3, before, names, room, next)?;
    }
    Ok(before)
}

/// A conditional expression (6.3.15).
#[cycle(read)]
fn read_conditional<'a>(
    arena: &'a Arena,
    tokens: &'a [Token],
    names: &mut TypeNames,
    room: u32,
    next: &mut u32,
) -> Result<Read<'a>, ExprFault>
    requires positive { 0 < room }
    requires ids { next.old + 16 * length tokens.now < 2 ^ 32 }
    ensures found { Gives result (steps.read_conditional (read (room - 1)) room names.old.now (symbols_of tokens.now)) }
    ensures stands { Over result next.old next.new tokens.now }
    ensures names { AsBefore names.new names.old }
    ensures ids { Spends next.old next.new (length tokens.now) (left result) }
{
    let condition = read_binary(arena, 10, tokens, names, room, next)?;
    let Some(rest) = after_sign(Punctuator::Question, condition.rest) else {
        return Ok(condition);
    };
    let then = expression_in_front(arena, COMMA_LEVEL, rest, names, room - 1, next)?;
    let Some(rest) = after_sign(Punctuator::Colon, then.rest) else {
        return Err(ExprFault::NoTree);
    };
    let otherwise = expression_in_front(arena, CONDITIONAL_LEVEL, rest, names, room - 1, next)?;
    conditional_of(arena, condition, then, otherwise, room, next)
}

/// A conditional expression, or an assignment to a unary one (6.3.16).
#[cycle(read)]
fn read_assignment<'a>(
    arena: &'a Arena,
    tokens: &'a [Token],
    names: &mut TypeNames,
    room: u32,
    next: &mut u32,
) -> Result<Read<'a>, ExprFault>
    requires positive { 0 < room }
    requires ids { next.old + 16 * length tokens.now < 2 ^ 32 }
    ensures found { Gives result (steps.read_assignment (read (room - 1)) room names.old.now (symbols_of tokens.now)) }
    ensures stands { Over result next.old next.new tokens.now }
    ensures names { AsBefore names.new names.old }
    ensures ids { Spends next.old next.new (length tokens.now) (left result) }
{
    let to = read_conditional(arena, tokens, names, room, next)?;
    let Some((op, rest)) = take_assign(to.rest) else {
        return Ok(to);
    };
    if grade(to.tree) > UNARY_LEVEL {
        return Err(ExprFault::NoTree);
    }
    let value = expression_in_front(arena, ASSIGNMENT_LEVEL, rest, names, room - 1, next)?;
    assignment_of(arena, op, to, value, room, next)
}

/// Assignments with commas between (6.3.17).
#[cycle(read)]
fn read_commas<'a>(
    arena: &'a Arena,
    tokens: &'a [Token],
    names: &mut TypeNames,
    room: u32,
    next: &mut u32,
) -> Result<Read<'a>, ExprFault>
    requires positive { 0 < room }
    requires ids { next.old + 16 * length tokens.now < 2 ^ 32 }
    ensures found { Gives result (steps.read_commas (read (room - 1)) room names.old.now (symbols_of tokens.now)) }
    ensures stands { Over result next.old next.new tokens.now }
    ensures names { AsBefore names.new names.old }
    ensures ids { Spends next.old next.new (length tokens.now) (left result) }
{
    let first = read_assignment(arena, tokens, names, room, next)?;
    read_chain(arena, COMMA_LEVEL, first, names, room, next)
}

/// The expression of this level in front.
#[tactic(auto, using(crate::proofs::Steps::reads))]
#[cycle(read)]
pub fn expression_in_front<'a>(
    arena: &'a Arena,
    level: u32,
    tokens: &'a [Token],
    names: &mut TypeNames,
    room: u32,
    next: &mut u32,
) -> Result<Read<'a>, ExprFault>
    requires ids { next.old + 16 * length tokens.now < 2 ^ 32 }
    ensures found { Gives result (read room (Expression level) names.old.now (symbols_of tokens.now)) }
    ensures stands { Over result next.old next.new tokens.now }
    ensures names { AsBefore names.new names.old }
    ensures ids { Spends next.old next.new (length tokens.now) (left result) }
{
    if room == 0 {
        return Err(ExprFault::NoTree);
    }
    if level >= COMMA_LEVEL {
        return read_commas(arena, tokens, names, room, next);
    }
    if level >= ASSIGNMENT_LEVEL {
        return read_assignment(arena, tokens, names, room, next);
    }
    if level >= CONDITIONAL_LEVEL {
        return read_conditional(arena, tokens, names, room, next);
    }
    if level >= CAST_LEVEL {
        return read_binary(arena, level - CAST_LEVEL, tokens, names, room, next);
    }
    if level >= UNARY_LEVEL {
        return read_unary(arena, tokens, names, room, next);
    }
    read_postfix(arena, tokens, names, room, next)
}
