//! The spellings of a pattern's tokens.

ghost use Rattle.std.specs.Prelude.{◌≡◌};
ghost use Rattle.c_objects.specs.Facts.{Facts};
ghost use Rattle.c_tree.specs.Symbol.{symbol_of, symbols_of};
ghost use Rattle.hole_matching.specs.Pattern.{same_names};
ghost use Rattle.hole_matching.specs.Subjects.{names_of};
ghost use Rattle.hole_matching.specs.Written.{spelling, spellings, constant_head};
ghost use Rattle.tree_comparison.specs.TreeLevels.Levels.{leaf_head};

use crate::tree_levels::heads::Leaf;
use c_tree::{Token, TokenKind};

/// The number of a token's spelling; keywords and punctuators have none.
pub fn spelling(token: &Token) -> u32
    ensures { result ≡ spelling (symbol_of token.now) }
{
    match token.kind {
        TokenKind::Keyword(_) => 0,
        TokenKind::Punct(_) => 0,
        _ => token.name,
    }
}

/// A constant of a pattern: an integer by its value, another by its spelling.
pub fn written_constant<'a>(token: &Token) -> Leaf<'a>
    ensures { (u : Facts) → leaf_head u result ≡ constant_head (symbol_of token.now) }
{
    match token.kind {
        TokenKind::Int { value, .. } => Leaf::Integer(value),
        _ => Leaf::Spelled(spelling(token)),
    }
}

/// Whether tokens have the spellings of those of a pattern, one by one.
pub fn are_written(tokens: &[Token], pattern: &[Token]) -> bool
    ensures { result ≡ same_names (names_of tokens.now) (spellings (symbols_of pattern.now)) }
{
    match tokens {
        [] => pattern.is_empty(),
        [token, rest @ ..] => match pattern {
            [] => false,
            [other, others @ ..] => token.name == spelling(other) && are_written(rest, others),
        },
    }
}
