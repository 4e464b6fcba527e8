//! One object more, where there is one.

ghost use Rattle.std.specs.Prelude.{◌≡◌, Some, IfOk};
ghost use Rattle.least_set.specs.Logs.{Adds};
ghost use Rattle.objects.specs.Origins.{origin_of};

use objects::{Object, Origin, copy};
use std::alloc::AllocError;

/// The object that an origin names for an object.
pub(crate) fn named(object: &Object, origin: Origin) -> Option<Object>
    ensures { result ≡ origin_of object.now origin }
{
    match origin {
        Origin::Same => Some(copy(object)),
        Origin::From(from) => Some(from),
        Origin::Nothing => None,
    }
}

/// Puts one last, if there is one that isn't there yet.
pub(crate) fn add(found: &mut Vec<Object>, more: Option<Object>) -> Result<(), AllocError>
    ensures { IfOk result (λ _. Adds (λ o. more ≡ Some o) found.old.items found.new.items) }
{
    let Some(object) = more else {
        return Ok(());
    };
    if found.contains(&object) {
        return Ok(());
    }
    found.push(object)?;
    Ok(())
}
