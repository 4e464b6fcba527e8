//! The units of functions.

ghost use Rattle.std.specs.Prelude.{◌≡◌, None, Some, IfSome, slice_get};
ghost use Rattle.type_rules.specs.Functions.{Defined};
ghost use Rattle.path_model.specs.CheckerPrograms.Texts.{functions_in};
ghost use Rattle.typed_unit.specs.Texts.{texts_of};

use call_graph::{FnId, Program};
use typed_unit::TypedUnit;

/// The unit in which the function with a number is defined; none where there is no such function.
pub fn unit_of<'u, 'a>(program: &Program<'u, 'a>, number: u32) -> Option<&'u TypedUnit<'a>>
    ensures there { IfSome result (λ u. (d : Defined) → slice_get (functions_in (texts_of program.now.units.items)) number ≡ Some d → slice_get program.now.units.items d.place.file ≡ Some u) }
    ensures missing { result ≡ None → slice_get (functions_in (texts_of program.now.units.items)) number ≡ None }
{
    if number >= program.count() {
        return None;
    }
    let function = program.function(FnId { number });
    Some(program.unit(function.file))
}
