//! Calls seen from the other end.

ghost use Rattle.std.specs.Prelude.{◌≤◌, IfOk};
ghost use Rattle.refine_restore.specs.HandedObjects.Handed.{AreEntered, AreHanded};
ghost use Rattle.refine_restore.specs.Sites.{site_of};

use crate::handed_objects::ends::End;
use crate::handed_objects::takers::takers;
use crate::site::Site;
use objects::Object;
use std::alloc::{AllocError, Global};

/// The callee's objects that begin with the state of an object of the caller: each once, exactly those whose `into_callee` it is. They have
/// at most `depth` steps.
pub fn entered_by(
    alloc: Global,
    site: &Site,
    caller_object: &Object,
    depth: u8,
) -> Result<Vec<Object>, AllocError>
    requires { depth ≤ 8 }
    ensures { IfOk result (λ list. AreEntered depth (site_of depth site.now) caller_object.now list.items) }
{
    takers(alloc, site, End::Entry, caller_object, depth)
}

/// The caller's objects that have the state of an object of the callee behind the call: each once, exactly those whose `out_of_callee` it
/// is. They have at most `depth` steps where that of the callee has.
pub fn handed_to(
    alloc: Global,
    site: &Site,
    callee_object: &Object,
    depth: u8,
) -> Result<Vec<Object>, AllocError>
    requires { depth ≤ 8 }
    ensures { IfOk result (λ list. AreHanded depth (site_of depth site.now) callee_object.now list.items) }
{
    takers(alloc, site, End::Return, callee_object, depth)
}
