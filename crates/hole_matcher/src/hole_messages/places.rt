//! The tokens of a unit by their places.

ghost use Rattle.std.specs.Prelude.{◌≡◌};
ghost use Rattle.hole_matching.specs.Message.{is_at, from_place};
ghost use Rattle.hole_matcher.specs.HoleMessages.Beginnings.{begins_at};

use c_tree::{Place, Token};
use typed_unit::{TypedUnit, from_number};

// Whether a token stands at a place.
fn is_at(place: Place, token: &Token) -> bool
    ensures { result ≡ is_at place token.now }
{
    token.place.file == place.file && token.place.token == place.token
}

// Whether the first of these tokens stands at a place.
fn begins_at(place: Place, tokens: &[Token]) -> bool
    ensures { result ≡ begins_at place tokens.now }
{
    match tokens.first() {
        Some(token) => is_at(place, token),
        None => false,
    }
}

/// The tokens of a unit from the one at a place on; none, if none stands there. It is found by halves.
pub fn from_place<'a>(unit: &TypedUnit<'a>, place: Place) -> &'a [Token]
    ensures { result.now ≡ from_place place unit.now.unit.tokens.now }
{
    let rest = from_number(unit, place.token);
    if begins_at(place, rest) { rest } else { &[] }
}
