//! Reads labeled and selection statements (ISO 9899:1990, 6.6.1, 6.6.4), behind their first word.

ghost use Rattle.std.specs.Prelude.{◌+◌, ◌-◌, ◌*◌, ◌<◌, ◌≤◌, ◌^◌, List, length};
ghost use Rattle.c_tree.specs.declared.keyword.Keyword.TheVariants as words;
ghost use Rattle.c_tree.specs.declared.punctuator.Punctuator.TheVariants as marks;
ghost use Rattle.c_tree.specs.declared.token.Token.{Token};
ghost use Rattle.c_tree.specs.Symbol.{Reserved, Sign, symbol_of, symbols_of};
ghost use Rattle.c_grammar.specs.Reading.{read as read_expressions};
ghost use Rattle.c_grammar.specs.Ways.StatementSteps as steps;
ghost use Rattle.c_grammar.specs.UnitGrammar.Reading.{read};
ghost use Rattle.c_expr.specs.Standing.{Over, Passes, Keeps, IsFirst};
ghost use Rattle.c_expr.specs.Gives.{Gives, AsBefore, left, Spends};

use crate::statement_nodes::{case_of, default_of, if_else_of, if_of, label_of, switch_of};
use crate::statements::{read_condition, statement_in_front};
use c_expr::{CONDITIONAL_LEVEL, ExprFault, Read, after_keyword, after_sign, expression_in_front};
use c_grammar::TypeNames;
use c_tree::{Arena, Keyword, Place, Punctuator, Token};

/// What follows a label and its colon (6.6.1).
#[cycle(statements)]
pub(crate) fn read_label<'a>(
    arena: &'a Arena,
    label: &'a Token,
    tokens: &'a [Token],
    names: &mut TypeNames,
    room: u32,
    next: &mut u32,
) -> Result<Read<'a>, ExprFault>
    requires positive { 0 < room }
    requires ids { next.old + 16 * length tokens.now + 1 < 2 ^ 32 }
    ensures found { Gives result (steps.read_label (read (room - 1)) room names.old.now (symbol_of label.now) (symbols_of tokens.now)) }
    ensures stands { (ts us : List Token) → Keeps label.now ts us → Passes (Sign marks.Colon) us tokens.now → Over result next.old next.new ts }
    ensures names { AsBefore names.new names.old }
    ensures ids { (next.old ≤ next.new) × (next.new + 16 * left result ≤ next.old + 16 * length tokens.now + 1) }
{
    let body = statement_in_front(arena, tokens, names, room - 1, next)?;
    label_of(arena, label, body, room, next)
}

/// What follows `case` (6.6.1).
#[cycle(statements)]
pub(crate) fn read_case<'a>(
    arena: &'a Arena,
    first: Place,
    tokens: &'a [Token],
    names: &mut TypeNames,
    room: u32,
    next: &mut u32,
) -> Result<Read<'a>, ExprFault>
    requires positive { 0 < room }
    requires ids { next.old + 16 * length tokens.now < 2 ^ 32 }
    ensures found { Gives result (steps.read_case (read_expressions (room - 1)) (read (room - 1)) room names.old.now (symbols_of tokens.now)) }
    ensures stands { (ts : List Token) → IsFirst first ts → Passes (Reserved words.Case) ts tokens.now → Over result next.old next.new ts }
    ensures names { AsBefore names.new names.old }
    ensures ids { Spends next.old next.new (length tokens.now) (left result) }
{
    let value = expression_in_front(arena, CONDITIONAL_LEVEL, tokens, names, room - 1, next)?;
    let Some(rest) = after_sign(Punctuator::Colon, value.rest) else {
        return Err(ExprFault::NoTree);
    };
    let body = statement_in_front(arena, rest, names, room - 1, next)?;
    case_of(arena, first, value, body, room, next)
}

/// What follows `default` (6.6.1).
#[cycle(statements)]
pub(crate) fn read_default<'a>(
    arena: &'a Arena,
    first: Place,
    tokens: &'a [Token],
    names: &mut TypeNames,
    room: u32,
    next: &mut u32,
) -> Result<Read<'a>, ExprFault>
    requires positive { 0 < room }
    requires ids { next.old + 16 * length tokens.now < 2 ^ 32 }
    ensures found { Gives result (steps.read_default (read (room - 1)) room names.old.now (symbols_of tokens.now)) }
    ensures stands { (ts : List Token) → IsFirst first ts → Passes (Reserved words.Default) ts tokens.now → Over result next.old next.new ts }
    ensures names { AsBefore names.new names.old }
    ensures ids { Spends next.old next.new (length tokens.now) (left result) }
{
    let Some(rest) = after_sign(Punctuator::Colon, tokens) else {
        return Err(ExprFault::NoTree);
    };
    let body = statement_in_front(arena, rest, names, room - 1, next)?;
    default_of(arena, first, body, room, next)
}

/// What follows `if` (6.6.4.1). An `else` belongs to the nearest `if` before it.
#[cycle(statements)]
pub(crate) fn read_if<'a>(
    arena: &'a Arena,
    first: Place,
    tokens: &'a [Token],
    names: &mut TypeNames,
    room: u32,
    next: &mut u32,
) -> Result<Read<'a>, ExprFault>
    requires positive { 0 < room }
    requires ids { next.old + 16 * length tokens.now < 2 ^ 32 }
    ensures found { Gives result (steps.read_if (read_expressions (room - 1)) (read (room - 1)) room names.old.now (symbols_of tokens.now)) }
    ensures stands { (ts : List Token) → IsFirst first ts → Passes (Reserved words.If) ts tokens.now → Over result next.old next.new ts }
    ensures names { AsBefore names.new names.old }
    ensures ids { Spends next.old next.new (length tokens.now) (left result) }
{
    let condition = read_condition(arena, tokens, names, room, next)?;
    let then = statement_in_front(arena, condition.rest, names, room - 1, next)?;
    let Some(rest) = after_keyword(Keyword::Else, then.rest) else {
        return if_of(arena, first, condition, then, room, next);
    };
    let otherwise = statement_in_front(arena, rest, names, room - 1, next)?;
    if_else_of(arena, first, condition, then, otherwise, room, next)
}

/// What follows `switch` (6.6.4.2).
#[cycle(statements)]
pub(crate) fn read_switch<'a>(
    arena: &'a Arena,
    first: Place,
    tokens: &'a [Token],
    names: &mut TypeNames,
    room: u32,
    next: &mut u32,
) -> Result<Read<'a>, ExprFault>
    requires positive { 0 < room }
    requires ids { next.old + 16 * length tokens.now < 2 ^ 32 }
    ensures found { Gives result (steps.read_switch (read_expressions (room - 1)) (read (room - 1)) room names.old.now (symbols_of tokens.now)) }
    ensures stands { (ts : List Token) → IsFirst first ts → Passes (Reserved words.Switch) ts tokens.now → Over result next.old next.new ts }
    ensures names { AsBefore names.new names.old }
    ensures ids { Spends next.old next.new (length tokens.now) (left result) }
{
    let value = read_condition(arena, tokens, names, room, next)?;
    let body = statement_in_front(arena, value.rest, names, room - 1, next)?;
    switch_of(arena, first, value, body, room, next)
}
