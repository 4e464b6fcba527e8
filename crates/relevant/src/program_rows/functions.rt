//! What rows say of functions as a whole.

ghost use Rattle.std.specs.Prelude.{◌≡◌, ◌<◌, length, Some, slice_get};
ghost use Rattle.type_rules.specs.Functions.{Defined};
ghost use Rattle.relevant.specs.ProgramRows.Ends.{IsUnitOf};
ghost use Rattle.call_graph.specs.OfPrograms.Definitions.{definitions, trees_in};
ghost use Rattle.refine_restore.specs.Sites.{formals_of};

use call_graph::{FnId, Program};
use type_values::Var;
use typed_unit::TypedUnit;

/// The unit in which the function with a number stands.
pub(crate) fn unit_of<'u, 'a>(program: &Program<'u, 'a>, number: u32) -> &'u TypedUnit<'a>
    requires { number < length (definitions (trees_in program.now.units.items)) }
    ensures { IsUnitOf program.now.units.items number result }
{
    let function = program.function(FnId { number });
    program.unit(function.file)
}

/// The formals of the function with a number; none where there is no such function.
pub(crate) fn formals_of<'u>(program: &Program<'u, '_>, number: u32) -> &'u [Option<Var>]
    ensures { (d : Defined) → slice_get (definitions (trees_in program.now.units.items)) number ≡ Some d → formals_of result.now ≡ d.formals }
{
    if number < program.count() {
        let function = program.function(FnId { number });
        function.formals.as_slice()
    } else {
        &[]
    }
}
