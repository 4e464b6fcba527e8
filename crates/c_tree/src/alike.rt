//! Tokens that are spelled alike.

ghost use Rattle.std.specs.Prelude.{◌≡◌, ◌↔◌, IsTrue};
ghost use Rattle.c_tree.specs.Symbol.{symbol_of, symbols_of};
ghost use Rattle.std.specs.Option.{option_map};
ghost use Rattle.c_tree.specs.Views.{maybe_token};

use crate::token::{Token, TokenKind};

/// Whether two tokens are the same wherever they stand: words by name, keywords and punctuators by kind, constants by kind
/// and spelling.
pub fn same_token(a: &Token, b: &Token) -> bool
    ensures { IsTrue result ↔ (symbol_of a.now ≡ symbol_of b.now) }
{
    match a.kind {
        TokenKind::Word(_) => match b.kind {
            TokenKind::Word(_) => a.name == b.name,
            _ => false,
        },
        TokenKind::Keyword(word) => match b.kind {
            TokenKind::Keyword(other) => word == other,
            _ => false,
        },
        TokenKind::Punct(mark) => match b.kind {
            TokenKind::Punct(other) => mark == other,
            _ => false,
        },
        TokenKind::Int {
            value,
            decimal,
            unsigned,
            longs,
        } => match b.kind {
            TokenKind::Int {
                value: other_value,
                decimal: other_decimal,
                unsigned: other_unsigned,
                longs: other_longs,
            } => value == other_value
                && decimal == other_decimal
                && unsigned == other_unsigned
                && longs == other_longs
                && a.name == b.name,
            _ => false,
        },
        TokenKind::Float(end) => match b.kind {
            TokenKind::Float(other) => end == other && a.name == b.name,
            _ => false,
        },
        TokenKind::Char { wide } => match b.kind {
            TokenKind::Char { wide: other } => wide == other && a.name == b.name,
            _ => false,
        },
        TokenKind::Str { wide } => match b.kind {
            TokenKind::Str { wide: other } => wide == other && a.name == b.name,
            _ => false,
        },
    }
}

/// Whether tokens are the same one by one.
pub fn same_tokens(a: &[Token], b: &[Token]) -> bool
    ensures { IsTrue result ↔ (symbols_of a.now ≡ symbols_of b.now) }
{
    if a.len() != b.len() {
        return false;
    }
    for i in 0..a.len() {
        if !same_token(&a[i], &b[i]) {
            return false;
        }
    }
    true
}

/// Whether two tags are the same, or both are missing.
pub fn same_tag(a: Option<&Token>, b: Option<&Token>) -> bool
    ensures { IsTrue result ↔ (option_map symbol_of (maybe_token a.entry) ≡ option_map symbol_of (maybe_token b.entry)) }
{
    match a {
        None => b.is_none(),
        Some(a) => match b {
            None => false,
            Some(b) => same_token(a, b),
        },
    }
}
