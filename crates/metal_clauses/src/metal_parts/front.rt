//! What stands in front of the tokens of a checker.

ghost use Rattle.std.specs.Prelude.{◌≡◌, ◌+◌, ◌≤◌, length, IfSome};
ghost use Rattle.c_tree.specs.Symbol.{symbols_of};
ghost use Rattle.c_grammar.specs.Symbols.{take_symbol};
ghost use Rattle.metal_grammar.specs.Ways.Steps as steps;
ghost use Rattle.metal_clauses.specs.MetalParts.Given.{Finds, same, token_symbol};
ghost use Rattle.metal_written.specs.Written.{literal_view};

use c_expr::{after_sign, is_sign};
use c_tree::{Punctuator, Token, TokenKind};
use metal_written::Literal;

/// The word in front that is no keyword, by the number of its name.
pub fn take_word<'a>(tokens: &'a [Token]) -> Option<(u32, &'a [Token])>
    ensures found { Finds same result (steps.take_word (symbols_of tokens.now)) }
    ensures shorter { IfSome result (λ r. length r.1.now + 1 ≡ length tokens.now) }
{
    match tokens {
        [] => None,
        [front, rest @ ..] => match front.kind {
            TokenKind::Word(_) => Some((front.name, rest)),
            _ => None,
        },
    }
}

/// The string in front.
pub(crate) fn take_literal<'a>(tokens: &'a [Token]) -> Option<(Literal, &'a [Token])>
    ensures found { Finds literal_view result (steps.take_literal (symbols_of tokens.now)) }
    ensures shorter { IfSome result (λ r. length r.1.now + 1 ≡ length tokens.now) }
{
    match tokens {
        [] => None,
        [front, rest @ ..] => match front.kind {
            TokenKind::Str { wide } => {
                let literal = Literal {
                    wide,
                    name: front.name,
                };
                Some((literal, rest))
            }
            _ => None,
        },
    }
}

/// The integer constant in front.
pub(crate) fn take_integer<'a>(tokens: &'a [Token]) -> Option<(&'a Token, &'a [Token])>
    ensures found { Finds token_symbol result (take_symbol steps.is_integer (symbols_of tokens.now)) }
    ensures shorter { IfSome result (λ r. length r.1.now + 1 ≡ length tokens.now) }
{
    match tokens {
        [] => None,
        [front, rest @ ..] => match front.kind {
            TokenKind::Int { .. } => Some((front, rest)),
            _ => None,
        },
    }
}

/// Whether this punctuator stands in front.
pub fn has_sign(sign: Punctuator, tokens: &[Token]) -> bool
    ensures { result ≡ steps.has_sign sign (symbols_of tokens.now) }
{
    match tokens {
        [] => false,
        [front, ..] => is_sign(sign, front),
    }
}

/// What follows this punctuator where it stands in front, and else all.
pub fn behind_sign<'a>(sign: Punctuator, tokens: &'a [Token]) -> &'a [Token]
    ensures found { symbols_of result.now ≡ steps.behind_sign sign (symbols_of tokens.now) }
    ensures shorter { length result.now ≤ length tokens.now }
{
    match after_sign(sign, tokens) {
        Some(rest) => rest,
        None => tokens,
    }
}
