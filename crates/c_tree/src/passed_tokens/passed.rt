//! What is left of tokens where some of them are passed.

ghost use Rattle.std.specs.Prelude.{◌≡◌, drop, length};
ghost use Rattle.std.specs.Option.{option_map};
ghost use Rattle.c_tree.specs.Symbol.{symbol_of};
ghost use Rattle.c_tree.specs.Tokens.{tag_if, comma_if, ellipsis_if};
ghost use Rattle.c_tree.specs.Views.{maybe_token};
ghost use Rattle.c_tree.specs.PassedTokens.Behind.{behind};

use crate::token::Token;

/// All but the first.
pub(crate) fn behind_one(tokens: &[Token]) -> &[Token]
    ensures { result.now ≡ drop 1 tokens.now }
{
    match tokens {
        [] => tokens,
        [_, rest @ ..] => rest,
    }
}

/// All but as many as there are others.
pub(crate) fn behind_all<'t>(front: &[Token], tokens: &'t [Token]) -> &'t [Token]
    ensures { result.now ≡ drop (length front.now) tokens.now }
{
    let passed = front.len().min(tokens.len());
    &tokens[passed..]
}

/// What is left behind the tag, where there is one.
pub(crate) fn behind_tag<'t>(tag: Option<&Token>, tokens: &'t [Token]) -> &'t [Token]
    ensures { result.now ≡ behind (tag_if (option_map symbol_of (maybe_token tag.entry))) tokens.now }
{
    match tag {
        None => tokens,
        Some(_) => behind_one(tokens),
    }
}

/// What is left behind the comma, where there is one.
pub(crate) fn behind_comma_if(comma: bool, tokens: &[Token]) -> &[Token]
    ensures { result.now ≡ behind (comma_if comma) tokens.now }
{
    if comma { behind_one(tokens) } else { tokens }
}

/// What is left behind `, ...`, where it stands.
pub(crate) fn behind_ellipsis_if(variadic: bool, tokens: &[Token]) -> &[Token]
    ensures { result.now ≡ behind (ellipsis_if variadic) tokens.now }
{
    if variadic {
        behind_one(behind_one(tokens))
    } else {
        tokens
    }
}
