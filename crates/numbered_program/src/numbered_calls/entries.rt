//! With which states the objects of a callee begin.

ghost use Rattle.std.specs.Prelude.{◌≡◌, ◌≤◌, IfOk};
ghost use Rattle.numbered_program.specs.NumberedCalls.Rows.{entered_rows};
ghost use Rattle.numbered_program.specs.NumberedTuples.FollowedObjects.{number_of};
ghost use Rattle.path_model.specs.CheckerModel.Calls.{into};
ghost use Rattle.refine_restore.specs.Sites.{site_of};
ghost use Rattle.type_rules.specs.Options.{if_there};

use crate::numbered_tuples::Numbering;
use objects::{Object, Origin};
use refine_restore::{Site, into_callee};
use row_flows::Touched;
use std::alloc::{AllocError, Global};

// The number of the caller's object whose state one of the callee begins with; 0 where it has none, or one that isn't followed.
fn source_number(site: &Site, depth: u8, caller: &Numbering, object: &Object) -> u32
    requires { depth ≤ 8 }
    ensures { result ≡ if_there (into depth (site_of depth site.now) object.now) 0 (number_of caller.now.objects.now.keys) }
{
    match into_callee(site, object, depth) {
        Origin::Same => caller.number(object),
        Origin::From(source) => caller.number(&source),
        Origin::Nothing => 0,
    }
}

/// With which states the callee's objects begin: a row for each object that is followed there, in the order of their numbers, with the
/// caller's object whose state it has; 0 where it begins unknown.
pub fn entered_rows(
    alloc: Global,
    site: &Site,
    depth: u8,
    caller: &Numbering,
    callee: &Numbering,
) -> Result<Vec<Touched>, AllocError>
    requires { depth ≤ 8 }
    ensures { IfOk result (λ rows. rows.items ≡ entered_rows depth (site_of depth site.now) caller.now.objects.now.keys callee.now.objects.now.keys) }
{
    let mut rows = Vec::new(alloc);
    let objects = callee.objects.as_slice();
    for (place, object) in objects.iter().enumerate() {
        let source = source_number(site, depth, caller, object);
        rows.push(Touched {
            object: place as u32 + 1,
            source,
        })?;
    }
    Ok(rows)
}
