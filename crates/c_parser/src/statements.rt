//! Reads statements (ISO 9899:1990, 6.6), by their first token.

ghost use Rattle.std.specs.Prelude.{◌≡◌, ◌+◌, ◌-◌, ◌*◌, ◌<◌, ◌≤◌, ◌^◌, ◌∷◌, length};
ghost use Rattle.c_tree.specs.Symbol.{Reserved, symbols_of};
ghost use Rattle.c_grammar.specs.Reading.{read as read_expressions};
ghost use Rattle.c_grammar.specs.UnitGrammar.Construct.{OneStatement};
ghost use Rattle.c_grammar.specs.Ways.StatementSteps as steps;
ghost use Rattle.c_grammar.specs.UnitGrammar.Reading.{read};
ghost use Rattle.c_expr.specs.Standing.{Over, Passes};
ghost use Rattle.c_expr.specs.Gives.{Gives, AsBefore, left, done, Spends};
ghost use Rattle.c_parser.specs.Parts.{GivesMaybe, left_by_maybe, OverMaybe};
ghost use Rattle.c_parser.specs.StatementParts.{done_by_maybe, OverCondition};

use crate::blocks::read_block_rest;
use crate::jumps::{read_break, read_continue, read_goto, read_return};
use crate::loops::{read_do, read_for, read_while};
use crate::parts::MaybeRead;
use crate::selections::{read_case, read_default, read_if, read_label, read_switch};
use crate::statement_nodes::expression_statement_of;
use c_expr::{COMMA_LEVEL, ExprFault, Read, after_sign, expression_in_front, place_of};
use c_grammar::TypeNames;
use c_tree::{Arena, Keyword, Punctuator, Token, TokenKind};

/// An expression and this punctuator behind it, or the punctuator alone.
pub(crate) fn read_maybe_expression<'a>(
    arena: &'a Arena,
    sign: Punctuator,
    tokens: &'a [Token],
    names: &mut TypeNames,
    room: u32,
    next: &mut u32,
) -> Result<MaybeRead<'a>, ExprFault>
    requires positive { 0 < room }
    requires ids { next.old + 16 * length tokens.now < 2 ^ 32 }
    ensures found { GivesMaybe result (steps.read_maybe_expr (read_expressions (room - 1)) names.old.now sign (symbols_of tokens.now)) }
    ensures stands { OverMaybe result sign next.old next.new tokens.now }
    ensures names { AsBefore names.new names.old }
    ensures ids { (next.old ≤ next.new) × (next.new + 16 * left_by_maybe result + 16 * done_by_maybe result ≤ next.old + 16 * length tokens.now) }
{
    if let Some(rest) = after_sign(sign, tokens) {
        return Ok(MaybeRead {
            tree: None,
            rest,
            height: 0,
        });
    }
    let value = expression_in_front(arena, COMMA_LEVEL, tokens, names, room - 1, next)?;
    let Some(rest) = after_sign(sign, value.rest) else {
        return Err(ExprFault::NoTree);
    };
    Ok(MaybeRead {
        tree: Some(value.tree),
        rest,
        height: value.height,
    })
}

/// An expression in parentheses.
pub(crate) fn read_condition<'a>(
    arena: &'a Arena,
    tokens: &'a [Token],
    names: &mut TypeNames,
    room: u32,
    next: &mut u32,
) -> Result<Read<'a>, ExprFault>
    requires positive { 0 < room }
    requires ids { next.old + 16 * length tokens.now < 2 ^ 32 }
    ensures found { Gives result (steps.read_condition (read_expressions (room - 1)) names.old.now (symbols_of tokens.now)) }
    ensures stands { OverCondition result next.old next.new tokens.now }
    ensures names { AsBefore names.new names.old }
    ensures ids { (next.old ≤ next.new) × (next.new + 16 * left result + 16 * done result ≤ next.old + 16 * length tokens.now) }
{
    let Some(inside) = after_sign(Punctuator::OpenParen, tokens) else {
        return Err(ExprFault::NoTree);
    };
    let value = expression_in_front(arena, COMMA_LEVEL, inside, names, room - 1, next)?;
    let Some(rest) = after_sign(Punctuator::CloseParen, value.rest) else {
        return Err(ExprFault::NoTree);
    };
    Ok(Read {
        tree: value.tree,
        rest,
        height: value.height,
    })
}

/// An expression as a statement, or a lone `;` (6.6.3).
fn read_expression_statement<'a>(
    arena: &'a Arena,
    tokens: &'a [Token],
    names: &mut TypeNames,
    room: u32,
    next: &mut u32,
) -> Result<Read<'a>, ExprFault>
    requires positive { 0 < room }
    requires ids { next.old + 16 * length tokens.now < 2 ^ 32 }
    ensures found { Gives result (steps.read_expression_statement (read_expressions (room - 1)) room names.old.now (symbols_of tokens.now)) }
    ensures stands { Over result next.old next.new tokens.now }
    ensures names { AsBefore names.new names.old }
    ensures ids { Spends next.old next.new (length tokens.now) (left result) }
{
    let value = read_maybe_expression(arena, Punctuator::Semicolon, tokens, names, room, next)?;
    expression_statement_of(arena, place_of(tokens), value, room, next)
}

/// The statement that this keyword begins; `rest` follows it. Where it begins none, it may begin an expression.
#[cycle(statements)]
fn read_by_keyword<'a>(
    arena: &'a Arena,
    word: Keyword,
    tokens: &'a [Token],
    rest: &'a [Token],
    names: &mut TypeNames,
    room: u32,
    next: &mut u32,
) -> Result<Read<'a>, ExprFault>
    requires positive { 0 < room }
    requires front { symbols_of tokens.now ≡ Reserved word ∷ symbols_of rest.now }
    requires passes { Passes (Reserved word) tokens.now rest.now }
    requires shorter { length rest.now + 1 ≡ length tokens.now }
    requires ids { next.old + 16 * length tokens.now < 2 ^ 32 }
    ensures found { Gives result (steps.read_by_keyword (read_expressions (room - 1)) (read (room - 1)) room names.old.now word (symbols_of rest.now)) }
    ensures stands { Over result next.old next.new tokens.now }
    ensures names { AsBefore names.new names.old }
    ensures ids { Spends next.old next.new (length tokens.now) (left result) }
{
    let first = place_of(tokens);
    match word {
        Keyword::If => read_if(arena, first, rest, names, room, next),
        Keyword::Switch => read_switch(arena, first, rest, names, room, next),
        Keyword::Case => read_case(arena, first, rest, names, room, next),
        Keyword::Default => read_default(arena, first, rest, names, room, next),
        Keyword::While => read_while(arena, first, rest, names, room, next),
        Keyword::Do => read_do(arena, first, rest, names, room, next),
        Keyword::For => read_for(arena, first, rest, names, room, next),
        Keyword::Goto => read_goto(arena, first, rest, room, next),
        Keyword::Continue => read_continue(arena, first, rest, room, next),
        Keyword::Break => read_break(arena, first, rest, room, next),
        Keyword::Return => read_return(arena, first, rest, names, room, next),
        _ => read_expression_statement(arena, tokens, names, room, next),
    }
}

/// A block, or an expression as a statement.
#[cycle(statements)]
fn read_block_or_expression<'a>(
    arena: &'a Arena,
    tokens: &'a [Token],
    names: &mut TypeNames,
    room: u32,
    next: &mut u32,
) -> Result<Read<'a>, ExprFault>
    requires positive { 0 < room }
    requires ids { next.old + 16 * length tokens.now < 2 ^ 32 }
    ensures found { Gives result (steps.read_block_or_expression (read_expressions (room - 1)) (read (room - 1)) room names.old.now (symbols_of tokens.now)) }
    ensures stands { Over result next.old next.new tokens.now }
    ensures names { AsBefore names.new names.old }
    ensures ids { Spends next.old next.new (length tokens.now) (left result) }
{
    match after_sign(Punctuator::OpenBrace, tokens) {
        Some(inside) => read_block_rest(arena, place_of(tokens), inside, names, room, next),
        None => read_expression_statement(arena, tokens, names, room, next),
    }
}

/// A statement of height at most `room`, by its first token.
#[cycle(statements)]
fn read_statement<'a>(
    arena: &'a Arena,
    tokens: &'a [Token],
    names: &mut TypeNames,
    room: u32,
    next: &mut u32,
) -> Result<Read<'a>, ExprFault>
    requires positive { 0 < room }
    requires ids { next.old + 16 * length tokens.now < 2 ^ 32 }
    ensures found { Gives result (steps.read_statement (read_expressions (room - 1)) (read (room - 1)) room names.old.now (symbols_of tokens.now)) }
    ensures stands { Over result next.old next.new tokens.now }
    ensures names { AsBefore names.new names.old }
    ensures ids { Spends next.old next.new (length tokens.now) (left result) }
{
    match tokens {
        [] => Err(ExprFault::NoTree),
        [front, rest @ ..] => match front.kind {
            TokenKind::Word(_) => match after_sign(Punctuator::Colon, rest) {
                Some(body) => read_label(arena, front, body, names, room, next),
                None => read_expression_statement(arena, tokens, names, room, next),
            },
            TokenKind::Keyword(word) => {
                read_by_keyword(arena, word, tokens, rest, names, room, next)
            }
            TokenKind::Int { .. }
            | TokenKind::Float(_)
            | TokenKind::Char { .. }
            | TokenKind::Str { .. }
            | TokenKind::Punct(_) => read_block_or_expression(arena, tokens, names, room, next),
        },
    }
}

/// The statement in front.
#[tactic(auto, using(crate::proofs::StatementSteps::reads))]
#[cycle(statements)]
pub(crate) fn statement_in_front<'a>(
    arena: &'a Arena,
    tokens: &'a [Token],
    names: &mut TypeNames,
    room: u32,
    next: &mut u32,
) -> Result<Read<'a>, ExprFault>
    requires ids { next.old + 16 * length tokens.now < 2 ^ 32 }
    ensures found { Gives result (read room OneStatement names.old.now (symbols_of tokens.now)) }
    ensures stands { Over result next.old next.new tokens.now }
    ensures names { AsBefore names.new names.old }
    ensures ids { Spends next.old next.new (length tokens.now) (left result) }
{
    if room == 0 {
        return Err(ExprFault::NoTree);
    }
    read_statement(arena, tokens, names, room, next)
}
