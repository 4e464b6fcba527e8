//! Reads jumps (ISO 9899:1990, 6.6.6), behind their first word.

ghost use Rattle.std.specs.Prelude.{◌+◌, ◌-◌, ◌*◌, ◌<◌, ◌^◌, List, length};
ghost use Rattle.c_tree.specs.declared.keyword.Keyword.TheVariants as words;
ghost use Rattle.c_tree.specs.declared.token.Token.{Token};
ghost use Rattle.c_tree.specs.Symbol.{Reserved, symbols_of};
ghost use Rattle.c_grammar.specs.Reading.{read as read_expressions};
ghost use Rattle.c_grammar.specs.Ways.StatementSteps as steps;
ghost use Rattle.c_expr.specs.Standing.{Over, Passes, IsFirst};
ghost use Rattle.c_expr.specs.Gives.{Gives, AsBefore, left, Spends};

use crate::statement_nodes::return_of;
use crate::statements::read_maybe_expression;
use c_expr::{ExprFault, Read, after_sign, node, take_word};
use c_grammar::TypeNames;
use c_tree::{Arena, Jump, Kind, Place, Punctuator, Token};

/// What follows `goto` (6.6.6.1).
pub(crate) fn read_goto<'a>(
    arena: &'a Arena,
    first: Place,
    tokens: &'a [Token],
    room: u32,
    next: &mut u32,
) -> Result<Read<'a>, ExprFault>
    requires ids { next.old + 16 * length tokens.now < 2 ^ 32 }
    ensures found { Gives result (steps.read_goto room (symbols_of tokens.now)) }
    ensures stands { (ts : List Token) → IsFirst first ts → Passes (Reserved words.Goto) ts tokens.now → Over result next.old next.new ts }
    ensures ids { Spends next.old next.new (length tokens.now) (left result) }
{
    let Some((label, end)) = take_word(tokens) else {
        return Err(ExprFault::NoTree);
    };
    let Some(rest) = after_sign(Punctuator::Semicolon, end) else {
        return Err(ExprFault::NoTree);
    };
    let kind = Kind::Jump(Jump::Goto { label });
    node(arena, kind, first, 0, rest, room, next)
}

/// What follows `continue` (6.6.6.2).
pub(crate) fn read_continue<'a>(
    arena: &'a Arena,
    first: Place,
    tokens: &'a [Token],
    room: u32,
    next: &mut u32,
) -> Result<Read<'a>, ExprFault>
    requires ids { next.old + 16 * length tokens.now < 2 ^ 32 }
    ensures found { Gives result (steps.read_continue room (symbols_of tokens.now)) }
    ensures stands { (ts : List Token) → IsFirst first ts → Passes (Reserved words.Continue) ts tokens.now → Over result next.old next.new ts }
    ensures ids { Spends next.old next.new (length tokens.now) (left result) }
{
    let Some(rest) = after_sign(Punctuator::Semicolon, tokens) else {
        return Err(ExprFault::NoTree);
    };
    let kind = Kind::Jump(Jump::Continue);
    node(arena, kind, first, 0, rest, room, next)
}

/// What follows `break` (6.6.6.3).
pub(crate) fn read_break<'a>(
    arena: &'a Arena,
    first: Place,
    tokens: &'a [Token],
    room: u32,
    next: &mut u32,
) -> Result<Read<'a>, ExprFault>
    requires ids { next.old + 16 * length tokens.now < 2 ^ 32 }
    ensures found { Gives result (steps.read_break room (symbols_of tokens.now)) }
    ensures stands { (ts : List Token) → IsFirst first ts → Passes (Reserved words.Break) ts tokens.now → Over result next.old next.new ts }
    ensures ids { Spends next.old next.new (length tokens.now) (left result) }
{
    let Some(rest) = after_sign(Punctuator::Semicolon, tokens) else {
        return Err(ExprFault::NoTree);
    };
    let kind = Kind::Jump(Jump::Break);
    node(arena, kind, first, 0, rest, room, next)
}

/// What follows `return` (6.6.6.4).
pub(crate) fn read_return<'a>(
    arena: &'a Arena,
    first: Place,
    tokens: &'a [Token],
    names: &mut TypeNames,
    room: u32,
    next: &mut u32,
) -> Result<Read<'a>, ExprFault>
    requires positive { 0 < room }
    requires ids { next.old + 16 * length tokens.now < 2 ^ 32 }
    ensures found { Gives result (steps.read_return (read_expressions (room - 1)) room names.old.now (symbols_of tokens.now)) }
    ensures stands { (ts : List Token) → IsFirst first ts → Passes (Reserved words.Return) ts tokens.now → Over result next.old next.new ts }
    ensures names { AsBefore names.new names.old }
    ensures ids { Spends next.old next.new (length tokens.now) (left result) }
{
    let value = read_maybe_expression(arena, Punctuator::Semicolon, tokens, names, room, next)?;
    return_of(arena, first, value, room, next)
}
