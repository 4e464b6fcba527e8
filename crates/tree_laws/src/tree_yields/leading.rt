//! Tokens that stand in front of others: each function gives what follows them, or nothing where others stand there. Nothing follows
//! where nothing is left.

ghost use Rattle.std.specs.Prelude.{◌≡◌, ◌↔◌, IsTrue};
ghost use Rattle.std.specs.Option.{option_map};
ghost use Rattle.c_tree.specs.Symbol.{Sign, Reserved, symbol_of, symbols_of};
ghost use Rattle.c_tree.specs.Views.{maybe_token};
ghost use Rattle.c_tree.specs.Phrase.{keyword, sign};
ghost use Rattle.c_tree.specs.Tokens.{tag_if, comma_if, ellipsis_if};
ghost use Rattle.tree_laws.specs.Ways.After.{after_one, after_symbols, after_phrase, rest_of};

use c_tree::{Keyword, Punctuator, Token, TokenKind, same_token};

/// What follows this token.
pub fn after_token<'t>(token: &Token, tokens: Option<&'t [Token]>) -> Option<&'t [Token]>
    ensures { rest_of result ≡ after_one (symbol_of token.now) (rest_of tokens.entry) }
{
    match tokens? {
        [front, rest @ ..] if same_token(token, front) => Some(rest),
        _ => None,
    }
}

/// What follows these tokens.
pub fn after_tokens<'t>(front: &[Token], tokens: Option<&'t [Token]>) -> Option<&'t [Token]>
    ensures { rest_of result ≡ after_symbols (symbols_of front.now) (rest_of tokens.entry) }
{
    let mut rest = tokens;
    for token in front {
        rest = after_token(token, rest);
    }
    rest
}

/// Whether a token is this punctuator.
fn is_sign(token: &Token, mark: Punctuator) -> bool
    ensures { IsTrue result ↔ (symbol_of token.now ≡ Sign mark) }
{
    match token.kind {
        TokenKind::Punct(other) => other == mark,
        _ => false,
    }
}

/// What follows this punctuator.
pub fn after_sign<'t>(mark: Punctuator, tokens: Option<&'t [Token]>) -> Option<&'t [Token]>
    ensures { rest_of result ≡ after_phrase (sign mark) (rest_of tokens.entry) }
{
    match tokens? {
        [front, rest @ ..] if is_sign(front, mark) => Some(rest),
        _ => None,
    }
}

/// Whether a token is this keyword.
fn is_keyword(token: &Token, word: Keyword) -> bool
    ensures { IsTrue result ↔ (symbol_of token.now ≡ Reserved word) }
{
    match token.kind {
        TokenKind::Keyword(other) => other == word,
        _ => false,
    }
}

/// What follows this keyword.
pub fn after_keyword<'t>(word: Keyword, tokens: Option<&'t [Token]>) -> Option<&'t [Token]>
    ensures { rest_of result ≡ after_phrase (keyword word) (rest_of tokens.entry) }
{
    match tokens? {
        [front, rest @ ..] if is_keyword(front, word) => Some(rest),
        _ => None,
    }
}

/// What follows the tag, where there is one.
pub fn after_tag<'t>(tag: Option<&Token>, tokens: Option<&'t [Token]>) -> Option<&'t [Token]>
    ensures { rest_of result ≡ after_phrase (tag_if (option_map symbol_of (maybe_token tag.entry))) (rest_of tokens.entry) }
{
    match tag {
        None => tokens,
        Some(token) => after_token(token, tokens),
    }
}

/// What follows the comma, where there is one.
pub fn after_comma_if(comma: bool, tokens: Option<&[Token]>) -> Option<&[Token]>
    ensures { rest_of result ≡ after_phrase (comma_if comma) (rest_of tokens.entry) }
{
    if comma {
        after_sign(Punctuator::Comma, tokens)
    } else {
        tokens
    }
}

/// What follows `, ...`, where it stands.
pub fn after_ellipsis_if(variadic: bool, tokens: Option<&[Token]>) -> Option<&[Token]>
    ensures { rest_of result ≡ after_phrase (ellipsis_if variadic) (rest_of tokens.entry) }
{
    if variadic {
        let rest = after_sign(Punctuator::Comma, tokens);
        after_sign(Punctuator::Ellipsis, rest)
    } else {
        tokens
    }
}
