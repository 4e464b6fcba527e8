//! Objects that are linked over calls.

ghost use Rattle.std.specs.Prelude.{◌≤◌, IfOk};
ghost use Rattle.least_set.specs.Logs.{IsExactly};
ghost use Rattle.relevant.specs.LinkedObjects.Linked.{AreLinkedOver};
ghost use Rattle.refine_restore.specs.Sites.{site_of};

use crate::linked_objects::lists::{add, named};
use objects::Object;
use refine_restore::{Site, entered_by, handed_to, into_callee, out_of_callee};
use std::alloc::{AllocError, Global};

/// The callee's objects that begin with the state of an object of the caller, or that hand it theirs back.
pub fn callee_objects(
    alloc: Global,
    site: &Site,
    caller_object: &Object,
    depth: u8,
) -> Result<Vec<Object>, AllocError>
    requires { depth ≤ 8 }
    ensures { IfOk result (λ list. IsExactly list.items (λ c. AreLinkedOver depth (site_of depth site.now) caller_object.now c)) }
{
    let mut found = entered_by(alloc, site, caller_object, depth)?;
    add(&mut found, out_of_callee(site, caller_object, depth))?;
    Ok(found)
}

/// The caller's objects with whose state an object of the callee begins, or to which it hands its own back.
pub fn caller_objects(
    alloc: Global,
    site: &Site,
    callee_object: &Object,
    depth: u8,
) -> Result<Vec<Object>, AllocError>
    requires { depth ≤ 8 }
    ensures { IfOk result (λ list. IsExactly list.items (λ o. AreLinkedOver depth (site_of depth site.now) o callee_object.now)) }
{
    let mut found = handed_to(alloc, site, callee_object, depth)?;
    let source = named(callee_object, into_callee(site, callee_object, depth));
    add(&mut found, source)?;
    Ok(found)
}
