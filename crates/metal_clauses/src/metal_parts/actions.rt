//! The actions of rules, as they are written.

ghost use Rattle.std.specs.Prelude.{◌≡◌, ◌<◌, ◌≤◌, length, suc, IfOk, IfSome};
ghost use Rattle.c_tree.specs.Symbol.{symbols_of};
ghost use Rattle.metal_grammar.specs.Ways.Steps as steps;
ghost use Rattle.metal_clauses.specs.MetalParts.Given.{Finds, Gives, same};
ghost use Rattle.metal_written.specs.Written.{literals_row, identifier_view, identifiers_view, action_view, maybe_action_view};
ghost use Rattle.metal_clauses.specs.Ways.Steps.{action_opening, action_closing};

use crate::metal_parts::front::{behind_sign, has_sign, take_literal, take_word};
use bumpalo::collections::into_bump_slice;
use c_expr::{ExprFault, after_sign};
use c_tree::{Arena, Punctuator, Token};
use metal_written::{Identifier, Literal, WrittenAction};

/// All literals in front, one at least.
fn read_literals<'a>(
    arena: &'a Arena,
    tokens: &'a [Token],
) -> Result<(&'a [Literal], &'a [Token]), ExprFault>
    ensures some { IfOk result (λ r. 0 < length r.0.now) }
    ensures found { Gives literals_row result (steps.read_literals (symbols_of tokens.now)) }
    ensures shorter { IfOk result (λ r. length r.1.now ≤ length tokens.now) }
{
    let mut literals = Vec::new(arena);
    let Some((first, mut rest)) = take_literal(tokens) else {
        return Err(ExprFault::NoTree);
    };
    literals.push(first)?;
    while let Some((literal, behind)) = take_literal(rest) {
        literals.push(literal)?;
        rest = behind;
    }
    Ok((into_bump_slice(literals), rest))
}

/// An argument, behind its comma.
fn read_identifier<'a>(tokens: &'a [Token]) -> Option<(Identifier, &'a [Token])>
    ensures found { Finds identifier_view result (steps.read_identifier (symbols_of tokens.now)) }
    ensures shorter { IfSome result (λ r. length r.1.now ≤ length tokens.now) }
{
    let (word, behind) = take_word(tokens)?;
    let inside = after_sign(Punctuator::OpenParen, behind)?;
    let (name, end) = take_word(inside)?;
    let rest = after_sign(Punctuator::CloseParen, end)?;
    Some((Identifier { word, name }, rest))
}

/// The arguments in front, each behind a comma.
fn read_identifiers<'a>(
    arena: &'a Arena,
    tokens: &'a [Token],
) -> Result<(&'a [Identifier], &'a [Token]), ExprFault>
    ensures found { Gives identifiers_view result (steps.read_identifiers (suc (length (symbols_of tokens.now))) (symbols_of tokens.now)) }
    ensures shorter { IfOk result (λ r. length r.1.now ≤ length tokens.now) }
{
    let mut arguments = Vec::new(arena);
    let mut rest = tokens;
    let mut fuel = tokens.len() + 1;
    while fuel != 0 {
        fuel -= 1;
        let Some(behind) = after_sign(Punctuator::Comma, rest) else {
            return Ok((into_bump_slice(arguments), rest));
        };
        let Some((argument, next)) = read_identifier(behind) else {
            return Err(ExprFault::NoTree);
        };
        arguments.push(argument)?;
        rest = next;
    }
    Err(ExprFault::NoTree)
}

/// The word of an action and its `(`, behind the `{` in front.
fn read_opening<'a>(tokens: &'a [Token]) -> Option<(u32, &'a [Token])>
    ensures found { Finds same result (action_opening (symbols_of tokens.now)) }
    ensures shorter { IfSome result (λ r. length r.1.now ≤ length tokens.now) }
{
    let inside = after_sign(Punctuator::OpenBrace, tokens)?;
    let (word, behind) = take_word(inside)?;
    let list = after_sign(Punctuator::OpenParen, behind)?;
    Some((word, list))
}

/// What follows the end of an action, and whether a `;` stands there.
fn read_closing<'a>(tokens: &'a [Token]) -> Option<(bool, &'a [Token])>
    ensures found { Finds same result (action_closing (symbols_of tokens.now)) }
    ensures shorter { IfSome result (λ r. length r.1.now ≤ length tokens.now) }
{
    let end = after_sign(Punctuator::CloseParen, tokens)?;
    let rest = after_sign(
        Punctuator::CloseBrace,
        behind_sign(Punctuator::Semicolon, end),
    )?;
    Some((has_sign(Punctuator::Semicolon, end), rest))
}

/// An action, behind its comma.
fn read_action<'a>(
    arena: &'a Arena,
    tokens: &'a [Token],
) -> Result<(WrittenAction<'a>, &'a [Token]), ExprFault>
    ensures found { Gives action_view result (steps.read_action (symbols_of tokens.now)) }
    ensures shorter { IfOk result (λ r. length r.1.now ≤ length tokens.now) }
{
    let Some((word, list)) = read_opening(tokens) else {
        return Err(ExprFault::NoTree);
    };
    let (literals, behind) = read_literals(arena, list)?;
    let (arguments, end) = read_identifiers(arena, behind)?;
    let Some((semicolon, rest)) = read_closing(end) else {
        return Err(ExprFault::NoTree);
    };
    let action = WrittenAction {
        word,
        literals,
        arguments,
        semicolon,
    };
    Ok((action, rest))
}

/// An action with its comma, if there is one.
pub fn read_maybe_action<'a>(
    arena: &'a Arena,
    tokens: &'a [Token],
) -> Result<(Option<WrittenAction<'a>>, &'a [Token]), ExprFault>
    ensures found { Gives maybe_action_view result (steps.read_maybe_action (symbols_of tokens.now)) }
    ensures shorter { IfOk result (λ r. length r.1.now ≤ length tokens.now) }
{
    let Some(behind) = after_sign(Punctuator::Comma, tokens) else {
        return Ok((None, tokens));
    };
    let (action, rest) = read_action(arena, behind)?;
    Ok((Some(action), rest))
}
