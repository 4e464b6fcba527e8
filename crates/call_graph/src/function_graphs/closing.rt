//! The closing braces of functions' bodies.

ghost use Rattle.std.specs.Prelude.{◌≡◌};
ghost use Rattle.call_graph.specs.FunctionGraphs.Closing.{closing, closing_brace};

use c_tree::{Place, Punctuator, Token, TokenKind};
use typed_unit::{TypedUnit, from_number};

/// The place at which the braces that open among these tokens are closed.
fn closing(tokens: &[Token]) -> Option<Place>
    ensures { result ≡ closing 0 tokens.now }
{
    let mut open_braces = 0usize;
    for token in tokens {
        match token.kind {
            TokenKind::Punct(Punctuator::OpenBrace) => open_braces += 1,
            TokenKind::Punct(Punctuator::CloseBrace) => {
                if open_braces <= 1 {
                    return Some(token.place);
                }
                open_braces -= 1;
            }
            _ => {}
        }
    }
    None
}

/// The closing brace of the block that begins at this place in a unit (ISO 9899:1990, 6.6.2).
pub(crate) fn closing_brace(unit: &TypedUnit, first: Place) -> Place
    ensures { result ≡ closing_brace unit.now.unit.tokens.now first }
{
    match closing(from_number(unit, first.token)) {
        Some(place) => place,
        None => first,
    }
}
