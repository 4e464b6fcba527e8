//! Reads postfix expressions (ISO 9899:1990, 6.3.2).

ghost use Rattle.std.specs.Prelude.{◌≡◌, ◌+◌, ◌-◌, ◌*◌, ◌<◌, ◌≤◌, ◌^◌, List, length};
ghost use Rattle.c_tree.specs.Symbol.{Sign, symbols_of};
ghost use Rattle.c_tree.specs.Syntax as kinds;
ghost use Rattle.c_tree.specs.Height.{height_of, height_in};
ghost use Rattle.c_tree.specs.Forget.{view, list_view};
ghost use Rattle.c_grammar.specs.Symbols.{begins};
ghost use Rattle.c_grammar.specs.Ways.ExpressionSteps as steps;
ghost use Rattle.c_grammar.specs.Found.{made};
ghost use Rattle.c_grammar.specs.Reading.{read};
ghost use Rattle.c_tree.specs.declared.punctuator.Punctuator.TheVariants as marks;
ghost use Rattle.c_tree.specs.declared.token.Token.{Token};
ghost use Rattle.c_tree.specs.Node as nodes;
ghost use Rattle.c_tree.specs.Views.{node_of, nodes_of};
ghost use Rattle.c_expr.specs.Standing.{Makes, Over, OverBehind, OverArguments, Passes, IsFirst};
ghost use Rattle.c_expr.specs.Gives.{Gives, GivesList, AsBefore, left, left_by_list, Spends};
ghost use Rattle.c_expr.specs.Ways.Postfixes.{indexed, called, member_of, arrow_of};

use crate::expressions::{expression_in_front, unary_of};
use crate::fault::ExprFault;
use crate::nodes::{Read, ReadList, list_of, node};
use crate::operators::{ASSIGNMENT_LEVEL, COMMA_LEVEL};
use crate::primary::read_primary;
use crate::symbols::{after_sign, place_of, take_word};
use c_grammar::TypeNames;
use c_tree::{Arena, Kind, Operation, Place, Punctuator, Token, TokenKind, UnaryOp};

/// Whether the token in front goes on with a postfix expression.
fn begins_postfix(tokens: &[Token]) -> bool
    ensures { result ≡ begins steps.begins_postfix (symbols_of tokens.now) }
{
    match tokens {
        [] => false,
        [front, ..] => match front.kind {
            TokenKind::Punct(sign) => match sign {
                Punctuator::OpenBracket
                | Punctuator::OpenParen
                | Punctuator::Dot
                | Punctuator::Arrow
                | Punctuator::Increment
                | Punctuator::Decrement => true,
                _ => false,
            },
            _ => false,
        },
    }
}

/// An element of an array, in front of `rest`.
fn index_of<'a>(
    arena: &'a Arena,
    array: Read<'a>,
    index: Read<'a>,
    rest: &'a [Token],
    room: u32,
    next: &mut u32,
) -> Result<Read<'a>, ExprFault>
    requires array { array.height ≡ height_of (view array.tree.now) }
    requires index { index.height ≡ height_of (view index.tree.now) }
    requires ids { next.old + 1 < 2 ^ 32 }
    ensures found { Gives result (made room (kinds.Operation (kinds.Index (view array.entry.tree.now) (view index.entry.tree.now))) (symbols_of rest.now)) }
    ensures node { Makes result next.old next.new array.entry.tree.now.first (nodes.Operation (nodes.Index (node_of array.entry.tree.now) (node_of index.entry.tree.now))) rest.now }
    ensures ids { (next.old ≤ next.new) × (next.new ≤ next.old + 1) × (left result ≤ length rest.now) }
{
    let highest = array.height.max(index.height);
    let kind = Kind::Operation(Operation::Index {
        array: array.tree,
        index: index.tree,
    });
    node(arena, kind, array.tree.first, highest, rest, room, next)
}

/// A call; `open` is the place of its parenthesis.
fn call_of<'a>(
    arena: &'a Arena,
    callee: Read<'a>,
    open: Place,
    arguments: ReadList<'a>,
    room: u32,
    next: &mut u32,
) -> Result<Read<'a>, ExprFault>
    requires callee { callee.height ≡ height_of (view callee.tree.now) }
    requires arguments { arguments.height ≡ height_in (list_view arguments.trees) }
    requires ids { next.old + 1 < 2 ^ 32 }
    ensures found { Gives result (made room (kinds.Operation (kinds.Call (view callee.entry.tree.now) (list_view arguments.entry.trees))) (symbols_of arguments.entry.rest.now)) }
    ensures node { Makes result next.old next.new callee.entry.tree.now.first (nodes.Operation (nodes.Call (node_of callee.entry.tree.now) «open» (nodes_of arguments.entry.trees))) arguments.entry.rest.now }
    ensures ids { (next.old ≤ next.new) × (next.new ≤ next.old + 1) × (left result ≤ length arguments.entry.rest.now) }
{
    let highest = callee.height.max(arguments.height);
    let kind = Kind::Operation(Operation::Call {
        callee: callee.tree,
        open,
        arguments: arguments.trees,
    });
    node(
        arena,
        kind,
        callee.tree.first,
        highest,
        arguments.rest,
        room,
        next,
    )
}

/// A member of a structure, behind its dot.
fn read_member<'a>(
    arena: &'a Arena,
    operand: Read<'a>,
    tokens: &'a [Token],
    room: u32,
    next: &mut u32,
) -> Result<Read<'a>, ExprFault>
    requires height { operand.height ≡ height_of (view operand.tree.now) }
    requires ids { next.old + 16 * length tokens.now < 2 ^ 32 }
    ensures found { Gives result (member_of room (view operand.entry.tree.now) (symbols_of tokens.now)) }
    ensures stands { (before : List Token) → Passes (Sign marks.Dot) before tokens.now → OverBehind result (node_of operand.entry.tree.now) next.old next.new before }
    ensures ids { Spends next.old next.new (length tokens.now) (left result) }
{
    let Some((member, rest)) = take_word(tokens) else {
        return Err(ExprFault::NoTree);
    };
    let kind = Kind::Operation(Operation::Member {
        operand: operand.tree,
        member,
    });
    node(
        arena,
        kind,
        operand.tree.first,
        operand.height,
        rest,
        room,
        next,
    )
}

/// A member of a structure that is pointed to, behind its arrow.
fn read_arrow<'a>(
    arena: &'a Arena,
    operand: Read<'a>,
    tokens: &'a [Token],
    room: u32,
    next: &mut u32,
) -> Result<Read<'a>, ExprFault>
    requires height { operand.height ≡ height_of (view operand.tree.now) }
    requires ids { next.old + 16 * length tokens.now < 2 ^ 32 }
    ensures found { Gives result (arrow_of room (view operand.entry.tree.now) (symbols_of tokens.now)) }
    ensures stands { (before : List Token) → Passes (Sign marks.Arrow) before tokens.now → OverBehind result (node_of operand.entry.tree.now) next.old next.new before }
    ensures ids { Spends next.old next.new (length tokens.now) (left result) }
{
    let Some((member, rest)) = take_word(tokens) else {
        return Err(ExprFault::NoTree);
    };
    let kind = Kind::Operation(Operation::Arrow {
        operand: operand.tree,
        member,
    });
    node(
        arena,
        kind,
        operand.tree.first,
        operand.height,
        rest,
        room,
        next,
    )
}

/// Arguments up to the parenthesis, at least one.
#[tactic(auto, using(crate::proofs::ListSteps::arguments))]
#[cycle(read)]
fn read_more_arguments<'a>(
    arena: &'a Arena,
    tokens: &'a [Token],
    names: &mut TypeNames,
    room: u32,
    next: &mut u32,
) -> Result<ReadList<'a>, ExprFault>
    requires positive { 0 < room }
    requires ids { next.old + 16 * length tokens.now < 2 ^ 32 }
    ensures found { GivesList result (steps.read_more_arguments (read (room - 1)) names.old.now (length (symbols_of tokens.now)) (symbols_of tokens.now)) }
    ensures stands { OverArguments result next.old next.new tokens.now }
    ensures names { AsBefore names.new names.old }
    ensures ids { Spends next.old next.new (length tokens.now) (left_by_list result) }
{
    let mut all = Vec::new(arena);
    let mut highest = 0;
    let mut rest = tokens;
    let mut fuel = tokens.len();
    while fuel != 0 {
        fuel -= 1;
        let argument = expression_in_front(arena, ASSIGNMENT_LEVEL, rest, names, room - 1, next)?;
        highest = argument.height.max(highest);
        all.push(*argument.tree)?;
        match after_sign(Punctuator::Comma, argument.rest) {
            Some(after) => rest = after,
            None => {
                let Some(end) = after_sign(Punctuator::CloseParen, argument.rest) else {
                    return Err(ExprFault::NoTree);
                };
                return Ok(ReadList {
                    trees: list_of(all),
                    rest: end,
                    height: highest,
                });
            }
        }
    }
    Err(ExprFault::NoTree)
}

/// Arguments up to the parenthesis (6.3.2.2).
#[cycle(read)]
fn read_arguments<'a>(
    arena: &'a Arena,
    tokens: &'a [Token],
    names: &mut TypeNames,
    room: u32,
    next: &mut u32,
) -> Result<ReadList<'a>, ExprFault>
    requires positive { 0 < room }
    requires ids { next.old + 16 * length tokens.now < 2 ^ 32 }
    ensures found { GivesList result (steps.read_arguments (read (room - 1)) names.old.now (symbols_of tokens.now)) }
    ensures stands { OverArguments result next.old next.new tokens.now }
    ensures names { AsBefore names.new names.old }
    ensures ids { Spends next.old next.new (length tokens.now) (left_by_list result) }
{
    if let Some(rest) = after_sign(Punctuator::CloseParen, tokens) {
        return Ok(ReadList {
            trees: list_of(Vec::new(arena)),
            rest,
            height: 0,
        });
    }
    read_more_arguments(arena, tokens, names, room, next)
}

/// An element of an array, behind its bracket (6.3.2.1).
#[cycle(read)]
fn read_index<'a>(
    arena: &'a Arena,
    operand: Read<'a>,
    tokens: &'a [Token],
    names: &mut TypeNames,
    room: u32,
    next: &mut u32,
) -> Result<Read<'a>, ExprFault>
    requires positive { 0 < room }
    requires height { operand.height ≡ height_of (view operand.tree.now) }
    requires ids { next.old + 16 * length tokens.now < 2 ^ 32 }
    ensures found { Gives result (indexed (read (room - 1)) room names.old.now (view operand.entry.tree.now) (symbols_of tokens.now)) }
    ensures stands { (before : List Token) → Passes (Sign marks.OpenBracket) before tokens.now → OverBehind result (node_of operand.entry.tree.now) next.old next.new before }
    ensures names { AsBefore names.new names.old }
    ensures ids { Spends next.old next.new (length tokens.now) (left result) }
{
    let index = expression_in_front(arena, COMMA_LEVEL, tokens, names, room - 1, next)?;
    let Some(rest) = after_sign(Punctuator::CloseBracket, index.rest) else {
        return Err(ExprFault::NoTree);
    };
    index_of(arena, operand, index, rest, room, next)
}

/// What a postfix expression becomes by the operator behind it.
#[cycle(read)]
fn read_postfix_operator<'a>(
    arena: &'a Arena,
    operand: Read<'a>,
    names: &mut TypeNames,
    room: u32,
    next: &mut u32,
) -> Result<Read<'a>, ExprFault>
    requires positive { 0 < room }
    requires height { operand.height ≡ height_of (view operand.tree.now) }
    requires ids { next.old + 16 * length operand.rest.now < 2 ^ 32 }
    ensures found { Gives result (steps.read_postfix_operator (read (room - 1)) room names.old.now (view operand.entry.tree.now) (symbols_of operand.entry.rest.now)) }
    ensures stands { OverBehind result (node_of operand.entry.tree.now) next.old next.new operand.entry.rest.now }
    ensures names { AsBefore names.new names.old }
    ensures ids { Spends next.old next.new (length operand.entry.rest.now) (left result) }
{
    let tokens = operand.rest;
    if let Some(inside) = after_sign(Punctuator::OpenBracket, tokens) {
        return read_index(arena, operand, inside, names, room, next);
    }
    if let Some(inside) = after_sign(Punctuator::OpenParen, tokens) {
        let arguments = read_arguments(arena, inside, names, room, next)?;
        return call_of(arena, operand, place_of(tokens), arguments, room, next);
    }
    if let Some(rest) = after_sign(Punctuator::Dot, tokens) {
        return read_member(arena, operand, rest, room, next);
    }
    if let Some(rest) = after_sign(Punctuator::Arrow, tokens) {
        return read_arrow(arena, operand, rest, room, next);
    }
    let first = operand.tree.first;
    if let Some(rest) = after_sign(Punctuator::Increment, tokens) {
        return unary_of(arena, UnaryOp::PostInc, first, operand, rest, room, next);
    }
    let Some(rest) = after_sign(Punctuator::Decrement, tokens) else {
        return Err(ExprFault::NoTree);
    };
    unary_of(arena, UnaryOp::PostDec, first, operand, rest, room, next)
}

/// A primary expression with its postfix operators.
#[tactic(auto, using(crate::proofs::Steps::postfixes))]
#[cycle(read)]
pub(crate) fn read_postfix<'a>(
    arena: &'a Arena,
    tokens: &'a [Token],
    names: &mut TypeNames,
    room: u32,
    next: &mut u32,
) -> Result<Read<'a>, ExprFault>
    requires positive { 0 < room }
    requires ids { next.old + 16 * length tokens.now < 2 ^ 32 }
    ensures found { Gives result (steps.read_postfix (read (room - 1)) room names.old.now (symbols_of tokens.now)) }
    ensures stands { Over result next.old next.new tokens.now }
    ensures names { AsBefore names.new names.old }
    ensures ids { Spends next.old next.new (length tokens.now) (left result) }
{
    let mut operand = read_primary(arena, tokens, names, room, next)?;
    let mut fuel = room;
    while begins_postfix(operand.rest) {
        if fuel == 0 {
            return Err(ExprFault::NoTree);
        }
        fuel -= 1;
        operand = read_postfix_operator(arena, operand, names, room, next)?;
    }
    Ok(operand)
}
