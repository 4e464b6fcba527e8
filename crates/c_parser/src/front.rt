//! What stands in front of tokens.

ghost use Rattle.std.specs.Prelude.{◌≡◌};
ghost use Rattle.c_tree.specs.Symbol.{symbols_of};
ghost use Rattle.c_grammar.specs.Symbols.{is_sign, begins};
ghost use Rattle.c_grammar.specs.Ways.StatementSteps.{begins_label, begins_declaration};

use c_expr::{begins_specifiers, is_sign};
use c_grammar::TypeNames;
use c_tree::{Punctuator, Token, TokenKind};

/// Whether this punctuator stands in front.
pub(crate) fn begins_sign(sign: Punctuator, tokens: &[Token]) -> bool
    ensures { result ≡ begins (is_sign sign) (symbols_of tokens.now) }
{
    match tokens {
        [] => false,
        [front, ..] => is_sign(sign, front),
    }
}

/// Whether a label stands in front (6.6.1).
pub(crate) fn begins_label(tokens: &[Token]) -> bool
    ensures { result ≡ begins_label (symbols_of tokens.now) }
{
    match tokens {
        [] => false,
        [front, rest @ ..] => match front.kind {
            TokenKind::Word(_) => begins_sign(Punctuator::Colon, rest),
            _ => false,
        },
    }
}

/// Whether a declaration stands in front, in a block.
pub(crate) fn begins_declaration(names: &TypeNames, tokens: &[Token]) -> bool
    ensures { result ≡ begins_declaration names.now.now (symbols_of tokens.now) }
{
    begins_specifiers(names, tokens) && !begins_label(tokens)
}
