//! Where a function is defined again.

ghost use Rattle.std.specs.Prelude.{◌≡◌, Contains, IfOk};
ghost use Rattle.c_tree.specs.declared.token.Token.{Token as TokenValue};
ghost use Rattle.command.specs.JudgedFiles.Linking.{HaveToken, IsWhere};
ghost use Rattle.request_files.specs.Views.{texts_of};

use c_tree::{Place, Token};
use mx_base::Names;
use request_files::{Fault, LocatedFault};
use std::alloc::{AllocError, Global};
use typed_unit::TypedUnit;

/// The token at a place.
fn token_at(tokens: &[Token], place: Place) -> Token
    requires { (t : TokenValue) × Contains tokens.now t × (t.place ≡ place) }
    ensures among { Contains tokens.now result }
    ensures there { result.place ≡ place }
{
    let mut position = 0;
    while tokens[position].place != place {
        position += 1;
    }
    tokens[position]
}

/// The presumed file and line of the function that is defined again at a place.
pub(crate) fn defined_again(
    alloc: Global,
    units: &[TypedUnit],
    place: Place,
    names: &Names,
) -> Result<LocatedFault, AllocError>
    requires { HaveToken names.now (texts_of units.now) place }
    ensures fault { IfOk result (λ l. l.fault ≡ Fault.DuplicateFunction) }
    ensures there { IfOk result (λ l. IsWhere names.now (texts_of units.now) place l.file.items l.line) }
{
    let token = token_at(units[place.file as usize].unit.tokens, place);
    let file = Vec::from_slice(alloc, names.text_of(token.source))?;
    Ok(LocatedFault {
        fault: Fault::DuplicateFunction,
        file,
        line: token.line,
    })
}
