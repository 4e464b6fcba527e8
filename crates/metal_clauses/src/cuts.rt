//! Where clauses end: at the first `;` within the braces of the machine and within no others. What stands up to the first `{`
//! belongs to the first clause, and everything from the closing brace of the machine on to the last.

ghost use Rattle.std.specs.Prelude.{◌≡◌, ◌+◌, ◌<◌, ◌≤◌, ◌^◌, ◌∷◌, length, take, drop};
ghost use Rattle.c_tree.specs.Symbol.{symbol_of, symbols_of};
ghost use Rattle.metal_grammar.specs.Clauses.{closes, ends_clause, ends_here, open_behind, clauses_from};
ghost use Rattle.metal_clauses.specs.Cuts.{others_in};

use crate::metal_parts::has_sign;
use c_expr::is_sign;
use c_tree::{Punctuator, Token};

/// Whether no clause begins here: the text ends, or the closing brace stands here.
fn ends_here(tokens: &[Token]) -> bool
    ensures { result ≡ ends_here (symbols_of tokens.now) }
{
    tokens.is_empty() || has_sign(Punctuator::CloseBrace, tokens)
}

/// What stands behind so many tokens.
pub(crate) fn tokens_behind<'a>(count: usize, tokens: &'a [Token]) -> &'a [Token]
    requires { count ≤ length tokens.now }
    ensures { result.now ≡ drop count tokens.now }
{
    &tokens[count..]
}

/// Whether no clause begins behind so many tokens.
fn ends_at(index: usize, tokens: &[Token]) -> bool
    requires { index ≤ length tokens.now }
    ensures { result ≡ ends_here (symbols_of (drop index tokens.now)) }
{
    ends_here(tokens_behind(index, tokens))
}

/// How many braces are open behind a token, where so many are before it.
pub fn open_behind(depth: u32, token: &Token) -> u32
    requires { depth + 1 < 2 ^ 32 }
    ensures { result ≡ open_behind depth (symbol_of token.now) }
{
    if is_sign(Punctuator::OpenBrace, token) {
        depth + 1
    } else if is_sign(Punctuator::CloseBrace, token) {
        depth.saturating_sub(1)
    } else {
        depth
    }
}

/// Whether the token is the closing brace of the machine.
fn closes(depth: u32, token: &Token) -> bool
    ensures { result ≡ closes depth (symbol_of token.now) }
{
    depth == 1 && is_sign(Punctuator::CloseBrace, token)
}

/// Whether the token is a `;` that ends a clause.
fn ends_clause(depth: u32, token: &Token) -> bool
    ensures { result ≡ ends_clause depth (symbol_of token.now) }
{
    depth == 1 && is_sign(Punctuator::Semicolon, token)
}

/// The number of tokens of the clause in front, where so many braces are open. A next clause begins in one brace.
#[tactic(auto, using(crate::proofs::InCuts::cuts))]
pub(crate) fn clause_len(depth: u32, tokens: &[Token]) -> usize
    requires { depth + length tokens.now < 2 ^ 32 }
    ensures within { result ≤ length tokens.now }
    ensures some { 0 < length tokens.now → 0 < result }
    ensures first { clauses_from depth (symbols_of tokens.now) ≡ symbols_of (take result tokens.now) ∷ others_in (symbols_of (drop result tokens.now)) }
{
    let mut open = depth;
    let mut index = 0;
    'going: while index < tokens.len() {
        let token = &tokens[index];
        index += 1;
        if closes(open, token) {
            return tokens.len();
        }
        if ends_clause(open, token) {
            return if ends_at(index, tokens) {
                tokens.len()
            } else {
                index
            };
        }
        open = open_behind(open, token);
    }
    index
}
