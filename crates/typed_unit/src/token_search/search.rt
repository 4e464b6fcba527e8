//! Tokens by their numbers, which rise.

ghost use Rattle.std.specs.Prelude.{◌≡◌};
ghost use Rattle.c_tree.specs.TokenPlaces.{StandInFile};
ghost use Rattle.typed_unit.specs.TokenSearch.Numbers.{from};

use crate::typed_unit::TypedUnit;
use c_tree::Token;

/// The tokens of a unit from the one with this number on; from the next one on, if the unit has none of this number.
pub fn from_number<'a>(unit: &TypedUnit<'a>, number: u32) -> &'a [Token]
    ensures { result.now ≡ from number unit.now.unit.tokens.now }
{
    let tokens = unit.unit.tokens;
    let index = tokens.partition_point(|token| token.place.token < number);
    &tokens[index..]
}
