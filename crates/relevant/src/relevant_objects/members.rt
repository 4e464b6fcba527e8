//! Objects of functions.

ghost use Rattle.std.specs.Prelude.{◌≡◌, ◌++◌, IfOk};
ghost use Rattle.path_model.specs.CheckerGraphs.Members.{members};

use objects::Object;
use std::alloc::AllocError;

/// Puts last these objects of the function with this number.
pub(crate) fn add_members(
    found: &mut Vec<(u32, Object)>,
    number: u32,
    objects: Vec<Object>,
) -> Result<(), AllocError>
    ensures { IfOk result (λ _. found.new.items ≡ found.old.items ++ members number objects.items) }
{
    for object in objects {
        found.push((number, object))?;
    }
    Ok(())
}
