//! What stands in front of tokens.

ghost use Rattle.std.specs.Prelude.{◌≡◌, ◌+◌, length, IfSome};
ghost use Rattle.std.specs.Option.{option_map};
ghost use Rattle.c_tree.specs.Symbol.{Sign, Reserved, symbol_of, symbols_of};
ghost use Rattle.c_grammar.specs.Symbols.{is_sign, is_keyword, is_word, is_string, after_sign, after_keyword, take_symbol, run_of, after_run};
ghost use Rattle.c_expr.specs.Runs.{stays};
ghost use Rattle.c_expr.specs.Standing.{Passes, Keeps, KeepsAll, IsFirst};

use c_tree::{Keyword, Place, Punctuator, Token, TokenKind};

/// Whether the token is this punctuator.
pub fn is_sign(sign: Punctuator, token: &Token) -> bool
    ensures { result ≡ is_sign sign (symbol_of token.now) }
{
    match token.kind {
        TokenKind::Punct(found) => sign as u8 == found as u8,
        _ => false,
    }
}

/// Whether the token is this keyword.
pub fn is_keyword(word: Keyword, token: &Token) -> bool
    ensures { result ≡ is_keyword word (symbol_of token.now) }
{
    match token.kind {
        TokenKind::Keyword(found) => word as u8 == found as u8,
        _ => false,
    }
}

/// What follows this punctuator, if it stands in front.
pub fn after_sign<'a>(sign: Punctuator, tokens: &'a [Token]) -> Option<&'a [Token]>
    ensures found { option_map (λ rest. symbols_of rest.now) result ≡ after_sign sign (symbols_of tokens.now) }
    ensures passes { IfSome result (λ rest. Passes (Sign sign) tokens.now rest.now) }
    ensures shorter { IfSome result (λ rest. length rest.now + 1 ≡ length tokens.now) }
{
    match tokens {
        [] => None,
        [front, rest @ ..] => if is_sign(sign, front) {
            Some(rest)
        } else {
            None
        },
    }
}

/// What follows this keyword, if it stands in front.
pub fn after_keyword<'a>(word: Keyword, tokens: &'a [Token]) -> Option<&'a [Token]>
    ensures found { option_map (λ rest. symbols_of rest.now) result ≡ after_keyword word (symbols_of tokens.now) }
    ensures passes { IfSome result (λ rest. Passes (Reserved word) tokens.now rest.now) }
    ensures shorter { IfSome result (λ rest. length rest.now + 1 ≡ length tokens.now) }
{
    match tokens {
        [] => None,
        [front, rest @ ..] => if is_keyword(word, front) {
            Some(rest)
        } else {
            None
        },
    }
}

/// The word in front that is no keyword, and what follows it.
pub fn take_word<'a>(tokens: &'a [Token]) -> Option<(&'a Token, &'a [Token])>
    ensures found { option_map (λ found. (symbol_of found.0.now, symbols_of found.1.now)) result ≡ take_symbol is_word (symbols_of tokens.now) }
    ensures kept { IfSome result (λ found. Keeps found.0.now tokens.now found.1.now) }
    ensures shorter { IfSome result (λ found. length found.1.now + 1 ≡ length tokens.now) }
{
    match tokens {
        [] => None,
        [front, rest @ ..] => match front.kind {
            TokenKind::Word(_) => Some((front, rest)),
            _ => None,
        },
    }
}

/// Tokens that a tree keeps side by side.
#[derive(Clone, Copy, PartialEq, Eq)]
pub enum Run {
    /// String literals (ISO 9899:1990, 6.1.4).
    Strings,
    /// The stars and qualifiers in front of a declarator (6.5.4.1).
    Pointers,
    /// The qualifiers and `static` in front of a bound (ISO 9899:1999, 6.7.5.2).
    BoundWords,
}

/// Whether the token goes on with the run.
fn stays(run: Run, token: &Token) -> bool
    ensures { result ≡ stays run (symbol_of token.now) }
{
    match token.kind {
        TokenKind::Str { .. } => run == Run::Strings,
        TokenKind::Punct(sign) => run == Run::Pointers && sign == Punctuator::Star,
        TokenKind::Keyword(word) => match word {
            Keyword::Const | Keyword::Volatile | Keyword::Restrict => run != Run::Strings,
            Keyword::Static => run == Run::BoundWords,
            _ => false,
        },
        _ => false,
    }
}

/// The longest run in front, and what follows it.
#[tactic(auto, using(crate::proofs::Runs::runs))]
pub fn split_run<'a>(run: Run, tokens: &'a [Token]) -> (&'a [Token], &'a [Token])
    ensures run { symbols_of result.0.now ≡ run_of (stays run) (symbols_of tokens.now) }
    ensures rest { symbols_of result.1.now ≡ after_run (stays run) (symbols_of tokens.now) }
    ensures length { length result.0.now + length result.1.now ≡ length tokens.now }
    ensures kept { KeepsAll result.0.now tokens.now result.1.now }
{
    let mut count = 0;
    while count < tokens.len() && stays(run, &tokens[count]) {
        count += 1;
    }
    tokens.split_at(count)
}

/// The place of the first of these tokens.
pub fn place_of(tokens: &[Token]) -> Place
    ensures { IsFirst result tokens.now }
{
    match tokens {
        [] => Place { file: 0, token: 0 },
        [front, ..] => front.place,
    }
}
