//! Whether heads and tokens are the same.

ghost use Rattle.std.specs.Prelude.{◌≡◌, ◌↔◌, IsTrue};
ghost use Rattle.c_tree.specs.Symbol.{symbol_of};
ghost use Rattle.tree_laws.specs.TreeEquality.Levels.{seen_constant, seen_words, words_view};

use crate::tree_equality::heads::{Head, Seeing, Words};
use c_tree::{Token, TokenKind, same_tag, same_token, same_tokens};

/// Whether two heads are the same.
pub fn same_head(a: Head, b: Head) -> bool
    ensures { IsTrue result ↔ (a ≡ b) }
{
    match a {
        Head::Plain(form) => match b {
            Head::Plain(other) => form == other,
            _ => false,
        },
        Head::Hole(number) => match b {
            Head::Hole(other) => number == other,
            _ => false,
        },
        Head::Unary(op) => match b {
            Head::Unary(other) => op == other,
            _ => false,
        },
        Head::Binary(op) => match b {
            Head::Binary(other) => op == other,
            _ => false,
        },
        Head::Assign(op) => match b {
            Head::Assign(other) => op == other,
            _ => false,
        },
        Head::Braces(comma) => match b {
            Head::Braces(other) => comma == other,
            _ => false,
        },
        Head::StructTag(which) => match b {
            Head::StructTag(other) => which == other,
            _ => false,
        },
        Head::StructBody(which) => match b {
            Head::StructBody(other) => which == other,
            _ => false,
        },
        Head::EnumBody(comma) => match b {
            Head::EnumBody(other) => comma == other,
            _ => false,
        },
        Head::Params(variadic) => match b {
            Head::Params(other) => variadic == other,
            _ => false,
        },
    }
}

/// A constant as it is seen: where C reads it, an integer has its value alone.
fn constant(how: Seeing, token: &Token) -> Token
    ensures { symbol_of result ≡ seen_constant how (symbol_of token.now) }
{
    match how {
        Seeing::AsRead => match token.kind {
            TokenKind::Int { value, .. } => Token {
                kind: TokenKind::Int {
                    value,
                    decimal: true,
                    unsigned: false,
                    longs: 0,
                },
                name: 0,
                ..*token
            },
            _ => *token,
        },
        _ => *token,
    }
}

/// Whether two constants are the same: integers that C reads by value, others by kind and spelling.
fn same_constant(how: Seeing, a: &Token, other_how: Seeing, b: &Token) -> bool
    ensures { IsTrue result ↔ (seen_constant how (symbol_of a.now) ≡ seen_constant other_how (symbol_of b.now)) }
{
    let left = constant(how, a);
    let right = constant(other_how, b);
    same_token(&left, &right)
}

/// Whether the tokens of two trees are the same.
pub fn same_words(how: Seeing, a: &Words, other_how: Seeing, b: &Words) -> bool
    ensures { IsTrue result ↔ (seen_words how (words_view a.now) ≡ seen_words other_how (words_view b.now)) }
{
    match a {
        Words::Value(token) => match b {
            Words::Value(other) => same_constant(how, token, other_how, other),
            _ => false,
        },
        Words::Single(token) => match b {
            Words::Single(other) => same_tag(*token, *other),
            _ => false,
        },
        Words::Several(tokens) => match b {
            Words::Several(others) => same_tokens(tokens, others),
            _ => false,
        },
        Words::Declared(pointers, name) => match b {
            Words::Declared(other_pointers, other_name) => {
                same_tokens(pointers, other_pointers) && same_tag(*name, *other_name)
            }
            _ => false,
        },
    }
}
