//! Which punctuators and words tokens are.

ghost use Rattle.std.specs.Prelude.{◌≡◌};
ghost use Rattle.c_lexer.specs.CReading.Strip.{is_open_paren, is_close_paren, is_qualifier};
ghost use Rattle.c_lexer.specs.CReading.Chunks.{opens, closes, is_semicolon, is_open_brace, is_close_brace};

use c_tree::{Keyword, Mark, Punctuator, TokenKind};

/// `(`, `[` or `{`.
pub fn opens(kind: TokenKind) -> bool
    ensures { result ≡ opens kind }
{
    matches!(
        kind,
        TokenKind::Punct(Punctuator::OpenParen | Punctuator::OpenBracket | Punctuator::OpenBrace)
    )
}

/// `)`, `]` or `}`.
pub fn closes(kind: TokenKind) -> bool
    ensures { result ≡ closes kind }
{
    matches!(
        kind,
        TokenKind::Punct(Punctuator::CloseParen | Punctuator::CloseBracket | Punctuator::CloseBrace)
    )
}

pub fn is_semicolon(kind: TokenKind) -> bool
    ensures { result ≡ is_semicolon kind }
{
    matches!(kind, TokenKind::Punct(Punctuator::Semicolon))
}

pub fn is_open_brace(kind: TokenKind) -> bool
    ensures { result ≡ is_open_brace kind }
{
    matches!(kind, TokenKind::Punct(Punctuator::OpenBrace))
}

pub fn is_close_brace(kind: TokenKind) -> bool
    ensures { result ≡ is_close_brace kind }
{
    matches!(kind, TokenKind::Punct(Punctuator::CloseBrace))
}

pub fn is_close_paren(kind: TokenKind) -> bool
    ensures { result ≡ is_close_paren kind }
{
    matches!(kind, TokenKind::Punct(Punctuator::CloseParen))
}

pub fn is_open_paren(kind: TokenKind) -> bool
    ensures { result ≡ is_open_paren kind }
{
    matches!(kind, TokenKind::Punct(Punctuator::OpenParen))
}

/// What may stand between `asm` and its group.
pub fn is_qualifier(kind: TokenKind) -> bool
    ensures { result ≡ is_qualifier kind }
{
    match kind {
        TokenKind::Keyword(Keyword::Volatile | Keyword::Goto | Keyword::Inline) => true,
        TokenKind::Word(Mark::VolatileBoth | Mark::InlineBoth) => true,
        _ => false,
    }
}
