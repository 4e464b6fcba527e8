//! Reads iteration statements (ISO 9899:1990, 6.6.5), behind their first word.

ghost use Rattle.std.specs.Prelude.{◌+◌, ◌-◌, ◌*◌, ◌<◌, ◌^◌, List, length};
ghost use Rattle.c_tree.specs.declared.keyword.Keyword.TheVariants as words;
ghost use Rattle.c_tree.specs.declared.token.Token.{Token};
ghost use Rattle.c_tree.specs.Symbol.{Reserved, symbols_of};
ghost use Rattle.c_grammar.specs.Reading.{read as read_expressions};
ghost use Rattle.c_grammar.specs.Ways.StatementSteps as steps;
ghost use Rattle.c_grammar.specs.UnitGrammar.Reading.{read};
ghost use Rattle.c_expr.specs.Standing.{Over, Passes, IsFirst};
ghost use Rattle.c_expr.specs.Gives.{Gives, AsBefore, left, Spends};

use crate::statement_nodes::{do_of, for_of, while_of};
use crate::statements::{read_condition, read_maybe_expression, statement_in_front};
use c_expr::{ExprFault, Read, after_keyword, after_sign};
use c_grammar::TypeNames;
use c_tree::{Arena, Keyword, Place, Punctuator, Token};

/// What follows `while` (6.6.5.1).
#[cycle(statements)]
pub(crate) fn read_while<'a>(
    arena: &'a Arena,
    first: Place,
    tokens: &'a [Token],
    names: &mut TypeNames,
    room: u32,
    next: &mut u32,
) -> Result<Read<'a>, ExprFault>
    requires positive { 0 < room }
    requires ids { next.old + 16 * length tokens.now < 2 ^ 32 }
    ensures found { Gives result (steps.read_while (read_expressions (room - 1)) (read (room - 1)) room names.old.now (symbols_of tokens.now)) }
    ensures stands { (ts : List Token) → IsFirst first ts → Passes (Reserved words.While) ts tokens.now → Over result next.old next.new ts }
    ensures names { AsBefore names.new names.old }
    ensures ids { Spends next.old next.new (length tokens.now) (left result) }
{
    let condition = read_condition(arena, tokens, names, room, next)?;
    let body = statement_in_front(arena, condition.rest, names, room - 1, next)?;
    while_of(arena, first, condition, body, room, next)
}

/// What follows `do` (6.6.5.2).
#[cycle(statements)]
pub(crate) fn read_do<'a>(
    arena: &'a Arena,
    first: Place,
    tokens: &'a [Token],
    names: &mut TypeNames,
    room: u32,
    next: &mut u32,
) -> Result<Read<'a>, ExprFault>
    requires positive { 0 < room }
    requires ids { next.old + 16 * length tokens.now < 2 ^ 32 }
    ensures found { Gives result (steps.read_do (read_expressions (room - 1)) (read (room - 1)) room names.old.now (symbols_of tokens.now)) }
    ensures stands { (ts : List Token) → IsFirst first ts → Passes (Reserved words.Do) ts tokens.now → Over result next.old next.new ts }
    ensures names { AsBefore names.new names.old }
    ensures ids { Spends next.old next.new (length tokens.now) (left result) }
{
    let body = statement_in_front(arena, tokens, names, room - 1, next)?;
    let Some(rest) = after_keyword(Keyword::While, body.rest) else {
        return Err(ExprFault::NoTree);
    };
    let condition = read_condition(arena, rest, names, room, next)?;
    let Some(end) = after_sign(Punctuator::Semicolon, condition.rest) else {
        return Err(ExprFault::NoTree);
    };
    do_of(arena, first, body, condition, end, room, next)
}

/// What follows `for` (6.6.5.3).
#[cycle(statements)]
pub(crate) fn read_for<'a>(
    arena: &'a Arena,
    first: Place,
    tokens: &'a [Token],
    names: &mut TypeNames,
    room: u32,
    next: &mut u32,
) -> Result<Read<'a>, ExprFault>
    requires positive { 0 < room }
    requires ids { next.old + 16 * length tokens.now < 2 ^ 32 }
    ensures found { Gives result (steps.read_for (read_expressions (room - 1)) (read (room - 1)) room names.old.now (symbols_of tokens.now)) }
    ensures stands { (ts : List Token) → IsFirst first ts → Passes (Reserved words.For) ts tokens.now → Over result next.old next.new ts }
    ensures names { AsBefore names.new names.old }
    ensures ids { Spends next.old next.new (length tokens.now) (left result) }
{
    let Some(inside) = after_sign(Punctuator::OpenParen, tokens) else {
        return Err(ExprFault::NoTree);
    };
    let start = read_maybe_expression(arena, Punctuator::Semicolon, inside, names, room, next)?;
    let condition = read_maybe_expression(
        arena,
        Punctuator::Semicolon,
        start.rest,
        names,
        room,
        next,
    )?;
    let step = read_maybe_expression(
        arena,
        Punctuator::CloseParen,
        condition.rest,
        names,
        room,
        next,
    )?;
    let body = statement_in_front(arena, step.rest, names, room - 1, next)?;
    for_of(arena, first, start, condition, step, body, room, next)
}
