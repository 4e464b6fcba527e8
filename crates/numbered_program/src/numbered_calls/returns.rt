//! What is handed back to a caller, and what is saved over the call.

ghost use Rattle.std.specs.Prelude.{◌≡◌, ◌≤◌, cond, is_none, None, Some, IfOk};
ghost use Rattle.std.specs.Option.{option_map};
ghost use Rattle.block_flows.specs.TupleFlows.Facts.{is_in};
ghost use Rattle.masked_paths.specs.StrictFlows.Among.{if_followed};
ghost use Rattle.numbered_program.specs.NumberedCalls.Rows.{handed_rows, saved_flags};
ghost use Rattle.numbered_program.specs.NumberedTuples.FollowedObjects.{number_of};
ghost use Rattle.path_model.specs.CheckerModel.Calls.{out};
ghost use Rattle.refine_restore.specs.Sites.{site_of};

use crate::numbered_tuples::Numbering;
use objects::Object;
use refine_restore::{Site, out_of_callee};
use row_flows::Touched;
use std::alloc::{AllocError, Global};

// The number of an object, if it is followed.
fn followed_number(numbering: &Numbering, object: &Object) -> Option<u32>
    ensures { result ≡ cond (is_in numbering.now.objects.now.keys object.now) (Some (number_of numbering.now.objects.now.keys object.now)) None }
{
    let found = numbering.number(object);
    if found == 0 { None } else { Some(found) }
}

// The number of the callee's object whose state one of the caller has behind the call; none where it has none, or one that isn't followed.
fn handing_number(site: &Site, depth: u8, callee: &Numbering, object: &Object) -> Option<u32>
    requires { depth ≤ 8 }
    ensures { result ≡ option_map (number_of callee.now.objects.now.keys) (if_followed (is_in callee.now.objects.now.keys) (out depth (site_of depth site.now) object.now)) }
{
    match out_of_callee(site, object, depth) {
        Some(source) => followed_number(callee, &source),
        None => None,
    }
}

// Whether an object of the caller is saved over the call: it has its state behind it from none that is followed in the callee.
fn is_saved(site: &Site, depth: u8, callee: &Numbering, object: &Object) -> bool
    requires { depth ≤ 8 }
    ensures { result ≡ is_none (if_followed (is_in callee.now.objects.now.keys) (out depth (site_of depth site.now) object.now)) }
{
    handing_number(site, depth, callee, object).is_none()
}

/// What is handed back: a row for each object that is followed in the caller and isn't saved, in the order of their numbers, with the callee's
/// object whose state it has behind the call.
pub fn handed_rows(
    alloc: Global,
    site: &Site,
    depth: u8,
    caller: &Numbering,
    callee: &Numbering,
) -> Result<Vec<Touched>, AllocError>
    requires { depth ≤ 8 }
    ensures { IfOk result (λ rows. rows.items ≡ handed_rows depth (site_of depth site.now) caller.now.objects.now.keys callee.now.objects.now.keys) }
{
    let mut rows = Vec::new(alloc);
    let objects = caller.objects.as_slice();
    for (place, object) in objects.iter().enumerate() {
        let Some(source) = handing_number(site, depth, callee, object) else {
            continue;
        };
        rows.push(Touched {
            object: place as u32 + 1,
            source,
        })?;
    }
    Ok(rows)
}

/// For each object that is followed in the caller in turn whether it is saved over the call.
pub fn saved_flags(
    alloc: Global,
    site: &Site,
    depth: u8,
    caller: &Numbering,
    callee: &Numbering,
) -> Result<Vec<bool>, AllocError>
    requires { depth ≤ 8 }
    ensures { IfOk result (λ flags. flags.items ≡ saved_flags depth (site_of depth site.now) caller.now.objects.now.keys callee.now.objects.now.keys) }
{
    let mut flags = Vec::new(alloc);
    let objects = caller.objects.as_slice();
    for object in objects {
        flags.push(is_saved(site, depth, callee, object))?;
    }
    Ok(flags)
}
