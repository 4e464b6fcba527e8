//! The types that holes are declared with.

ghost use Rattle.std.specs.Prelude.{◌≡◌, ◌+◌, ◌<◌, ◌≤◌, ◌^◌, length, IfSome, true};
ghost use Rattle.c_tree.specs.Symbol.{symbol_of, symbols_of};
ghost use Rattle.c_tree.specs.declared.punctuator.Punctuator.TheVariants as marks;
ghost use Rattle.c_grammar.specs.Symbols.{is_sign, run_of, after_run};
ghost use Rattle.metal_grammar.specs.Ways.Steps as steps;
ghost use Rattle.metal_clauses.specs.MetalParts.Given.{Finds};
ghost use Rattle.metal_clauses.specs.Ways.Steps.{named_type};
ghost use Rattle.metal_written.specs.Written.{type_view};
ghost use Rattle.metal_written.specs.TypeWords.{has_type_words};

use crate::metal_parts::front::take_word;
use c_expr::{after_keyword, is_sign, is_type_word};
use c_tree::{Keyword, Punctuator, StructOrUnion, Token, TokenKind};
use metal_written::WrittenType;

/// Whether the token is a word of basic types.
fn is_type_token(token: &Token) -> bool
    ensures { result ≡ steps.is_type_symbol (symbol_of token.now) }
{
    match token.kind {
        TokenKind::Keyword(word) => is_type_word(word),
        _ => false,
    }
}

/// The words of basic types in front, and what follows them.
#[tactic(auto, using(c_expr::proofs::Runs::runs))]
fn split_type_words<'a>(tokens: &'a [Token]) -> (&'a [Token], &'a [Token])
    ensures words { symbols_of result.0.now ≡ run_of steps.is_type_symbol (symbols_of tokens.now) }
    ensures rest { symbols_of result.1.now ≡ after_run steps.is_type_symbol (symbols_of tokens.now) }
    ensures length { length result.0.now + length result.1.now ≡ length tokens.now }
{
    let mut count = 0;
    while count < tokens.len() && is_type_token(&tokens[count]) {
        count += 1;
    }
    tokens.split_at(count)
}

/// The stars in front, and what follows them.
#[tactic(auto, using(c_expr::proofs::Runs::runs))]
fn split_star_run<'a>(tokens: &'a [Token]) -> (&'a [Token], &'a [Token])
    ensures stars { symbols_of result.0.now ≡ run_of (is_sign marks.Star) (symbols_of tokens.now) }
    ensures rest { symbols_of result.1.now ≡ after_run (is_sign marks.Star) (symbols_of tokens.now) }
    ensures length { length result.0.now + length result.1.now ≡ length tokens.now }
{
    let mut count = 0;
    while count < tokens.len() && is_star(&tokens[count]) {
        count += 1;
    }
    tokens.split_at(count)
}

/// Whether the token is a star.
fn is_star(token: &Token) -> bool
    ensures { result ≡ is_sign marks.Star (symbol_of token.now) }
{
    is_sign(Punctuator::Star, token)
}

/// How many stars stand in front, and what follows them.
fn split_stars<'a>(tokens: &'a [Token]) -> (u32, &'a [Token])
    requires { length tokens.now < 2 ^ 32 }
    ensures shorter { length result.1.now ≤ length tokens.now }
    ensures count { result.0 ≡ length (run_of (is_sign marks.Star) (symbols_of tokens.now)) }
    ensures rest { symbols_of result.1.now ≡ after_run (is_sign marks.Star) (symbols_of tokens.now) }
{
    let (stars, rest) = split_star_run(tokens);
    (stars.len() as u32, rest)
}

/// A tag, and the stars behind it.
fn read_tag_type<'a>(
    which: StructOrUnion,
    tokens: &'a [Token],
) -> Option<(WrittenType<'a>, &'a [Token])>
    requires { length tokens.now < 2 ^ 32 }
    ensures typed { IfSome result (λ r. has_type_words r.0 ≡ true) }
    ensures found { Finds type_view result (steps.read_tag_type which (symbols_of tokens.now)) }
    ensures shorter { IfSome result (λ r. length r.1.now ≤ length tokens.now) }
{
    let (tag, behind) = take_word(tokens)?;
    let (stars, rest) = split_stars(behind);
    Some((WrittenType::Tag { which, tag, stars }, rest))
}

/// The type in front, where no word of basic types stands there.
fn read_named_type<'a>(tokens: &'a [Token]) -> Option<(WrittenType<'a>, &'a [Token])>
    requires { length tokens.now < 2 ^ 32 }
    ensures shorter { IfSome result (λ r. length r.1.now ≤ length tokens.now) }
    ensures typed { IfSome result (λ r. has_type_words r.0 ≡ true) }
    ensures found { Finds type_view result (named_type (symbols_of tokens.now)) }
{
    if let Some((name, rest)) = take_word(tokens) {
        return Some((WrittenType::Kind { name }, rest));
    }
    if let Some(rest) = after_keyword(Keyword::Struct, tokens) {
        return read_tag_type(StructOrUnion::Struct, rest);
    }
    let rest = after_keyword(Keyword::Union, tokens)?;
    read_tag_type(StructOrUnion::Union, rest)
}

/// The type in front.
pub(crate) fn read_type<'a>(tokens: &'a [Token]) -> Option<(WrittenType<'a>, &'a [Token])>
    requires { length tokens.now < 2 ^ 32 }
    ensures shorter { IfSome result (λ r. length r.1.now ≤ length tokens.now) }
    ensures typed { IfSome result (λ r. has_type_words r.0 ≡ true) }
    ensures found { Finds type_view result (steps.read_type (symbols_of tokens.now)) }
{
    let (words, behind) = split_type_words(tokens);
    if words.is_empty() {
        return read_named_type(tokens);
    }
    let (stars, rest) = split_stars(behind);
    Some((WrittenType::Basic { words, stars }, rest))
}
