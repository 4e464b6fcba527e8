//! Drops what GNU C adds and nothing here reads, and gives other spellings of keywords their kind.

ghost use Rattle.std.specs.Prelude.{◌≡◌, ◌+◌, ◌<◌, ◌≤◌, ℕ, List, ◌∷◌, length, drop, reverse, IfOk, IfSome, Some, slice_get};
ghost use Rattle.c_tree.specs.declared.token.Token.{Token as TokenValue};
ghost use Rattle.c_lexer.specs.CReading.Strip.{group_len, asm_len, dropped_with, renamed, stripped};
ghost use Rattle.c_lexer.specs.Groups.{AreEnds, AreGroups};
ghost use Rattle.c_lexer.specs.CReading.Scans.{plus};
ghost use Rattle.c_tree.specs.TokenPlaces.{Rises};

use crate::kinds::{is_close_paren, is_open_paren, is_qualifier};
use crate::tokens::Tokens;
use c_tree::{Keyword, Mark, Token, TokenKind};
use std::alloc::{AllocError, Global};

/// The length of the group that begins at a token, if one does. `behind` tokens stand behind it, and `closers` has the number
/// of tokens behind each `)` there that closes no group there, the first one last.
fn group_at(
    kind: TokenKind,
    behind: usize,
    closers: &mut Vec<usize>,
) -> Result<Option<usize>, AllocError>
    requires { behind < 4294967296 }
    ensures { IfOk result (λ group. (t : TokenValue) (rest : List TokenValue) →
        t.kind ≡ kind → length rest ≡ behind → AreEnds rest (reverse closers.old.items) →
        AreEnds (t ∷ rest) (reverse closers.new.items) × (group ≡ group_len (t ∷ rest))) }
{
    if is_open_paren(kind) {
        return match closers.pop() {
            None => Ok(None),
            Some(closer) => Ok(Some((behind + 1).saturating_sub(closer))),
        };
    }
    if is_close_paren(kind) {
        closers.push(behind)?;
    }
    Ok(None)
}

/// For each token, the length of the group that begins there, if one does. Linear, since each `(` and `)` is met once, from
/// the last to the first.
fn groups_of(alloc: Global, tokens: &[Token]) -> Result<Vec<Option<usize>>, AllocError>
    requires { length tokens.now < 4294967296 }
    ensures { IfOk result (λ groups. AreGroups tokens.now groups.items) }
{
    let mut groups = vec![in alloc; None; tokens.len()]?;
    let mut closers = Vec::new(alloc);
    let mut behind = 0;
    let mut index = tokens.len();
    'back: while index > 0 {
        index -= 1;
        groups[index] = group_at(tokens[index].kind, behind, &mut closers)?;
        behind += 1;
    }
    Ok(groups)
}

/// The length of the group that begins with the token with this number, if one does.
fn group_len(tokens: &[Token], groups: &[Option<usize>], index: usize) -> Option<usize>
    requires groups { AreGroups tokens.now groups.now }
    requires within { index ≤ length tokens.now }
    ensures found { result ≡ group_len (drop index tokens.now) }
    ensures within { IfSome result (λ n. index + n ≤ length tokens.now) }
{
    if index < groups.len() {
        groups[index]
    } else {
        None
    }
}

/// How many qualifiers stand from the token with this number on.
fn qualifiers_from(tokens: &[Token], index: usize) -> usize
    requires { index ≤ length tokens.now }
    ensures found { asm_len (drop index tokens.now) ≡ plus result (group_len (drop (index + result) tokens.now)) }
    ensures within { index + result ≤ length tokens.now }
{
    let mut count = 0;
    'qualifying: while index + count < tokens.len() {
        if !is_qualifier(tokens[index + count].kind) {
            return count;
        }
        count += 1;
    }
    count
}

/// The number of tokens of qualifiers and a group from the token with this number on, if a group follows.
fn asm_len(tokens: &[Token], groups: &[Option<usize>], index: usize) -> Option<usize>
    requires groups { AreGroups tokens.now groups.now }
    requires within { index ≤ length tokens.now }
    ensures found { result ≡ asm_len (drop index tokens.now) }
    ensures within { IfSome result (λ n. index + n ≤ length tokens.now) }
{
    let count = qualifiers_from(tokens, index);
    match group_len(tokens, groups, index + count) {
        None => None,
        Some(group) => Some(group + count),
    }
}

/// How many tokens from the one with this number on are dropped with a word of this kind before it, if it is dropped.
fn dropped_with(
    kind: TokenKind,
    tokens: &[Token],
    groups: &[Option<usize>],
    index: usize,
) -> Option<usize>
    requires groups { AreGroups tokens.now groups.now }
    requires within { index ≤ length tokens.now }
    ensures found { result ≡ dropped_with kind (drop index tokens.now) }
    ensures within { IfSome result (λ n. index + n ≤ length tokens.now) }
{
    match kind {
        TokenKind::Word(Mark::ExtensionBoth) => Some(0),
        TokenKind::Word(Mark::Attribute | Mark::AttributeBoth) => group_len(tokens, groups, index),
        TokenKind::Word(Mark::AsmPlain | Mark::Asm | Mark::AsmBoth) => asm_len(
            tokens, groups, index,
        ),
        _ => None,
    }
}

/// The keyword that another spelling stands for.
fn renamed(kind: TokenKind) -> TokenKind
    ensures { result ≡ renamed kind }
{
    let TokenKind::Word(mark) = kind else {
        return kind;
    };
    match mark {
        Mark::Inline | Mark::InlineBoth => TokenKind::Keyword(Keyword::Inline),
        Mark::Restrict | Mark::RestrictBoth => TokenKind::Keyword(Keyword::Restrict),
        Mark::Const | Mark::ConstBoth => TokenKind::Keyword(Keyword::Const),
        Mark::Volatile | Mark::VolatileBoth => TokenKind::Keyword(Keyword::Volatile),
        Mark::Signed | Mark::SignedBoth => TokenKind::Keyword(Keyword::Signed),
        _ => kind,
    }
}

/// The tokens without those that GNU C adds and nothing here reads. Other spellings of keywords get the keyword's kind.
/// Places and spellings stay.
pub fn strip(alloc: Global, tokens: &Tokens) -> Result<Tokens, AllocError>
    ensures all { IfOk result (λ kept. kept.all ≡ stripped tokens.now.all) }
    ensures end { IfOk result (λ kept. kept.end ≡ tokens.now.end) }
{
    let all = tokens.all();
    let groups = groups_of(alloc, all)?;
    let mut kept = Vec::new(alloc);
    let mut index = 0;
    'going: while index < all.len() {
        let token = all[index];
        index += 1;
        match dropped_with(token.kind, all, groups.as_slice(), index) {
            Some(count) => index += count,
            None => kept.push(Token {
                kind: renamed(token.kind),
                ..token
            })?,
        }
    }
    Ok(Tokens::new(kept, tokens.end()))
}
