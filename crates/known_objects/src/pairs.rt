//! Objects with what a search wants beside them.

ghost use Rattle.std.specs.Prelude.{◌≡◌, map, IfOk};
ghost use Rattle.known_objects.specs.Linked.{entry_at};
ghost use Rattle.path_model.specs.CheckerGraphs.Members.{member};

use crate::changes::Numbered;
use known_search::Entry;
use objects::{Object, copy};
use std::alloc::{AllocError, Global};

/// These objects as those with which the callee of a call begins.
pub(crate) fn entries(
    alloc: Global,
    call: &Numbered,
    objects: &[Object],
) -> Result<Vec<Entry<Object>>, AllocError>
    ensures { IfOk result (λ list. list.items ≡ map (entry_at call.now) objects.now) }
{
    let mut list = Vec::new(alloc);
    for object in objects {
        list.push(Entry {
            call: call.number,
            callee: call.call.callee,
            object: copy(object),
        })?;
    }
    Ok(list)
}

/// These objects as those of the function with a number.
pub(crate) fn pairs(
    alloc: Global,
    function: u32,
    objects: &[Object],
) -> Result<Vec<(u32, Object)>, AllocError>
    ensures { IfOk result (λ list. list.items ≡ map (member function) objects.now) }
{
    let mut list = Vec::new(alloc);
    for object in objects {
        list.push((function, copy(object)))?;
    }
    Ok(list)
}
