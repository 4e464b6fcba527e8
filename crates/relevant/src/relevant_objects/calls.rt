//! Links over calls.

ghost use Rattle.std.specs.Prelude.{◌⊎◌, ◌≤◌, IfOk};
ghost use Rattle.least_set.specs.Logs.{Adds, SomeGives};
ghost use Rattle.relevant.specs.RelevantObjects.Links.{LinksInto, LinksBack, LinksOver};

use crate::linked_objects::{callee_objects, caller_objects};
use crate::relevant_objects::members::add_members;
use crate::relevant_objects::rows::{FollowedCall, FunctionRow};
use objects::Object;
use std::alloc::{AllocError, Global};

// Puts last what a call links an object of its caller to.
fn add_into(
    alloc: Global,
    found: &mut Vec<(u32, Object)>,
    call: &FollowedCall,
    member: &(u32, Object),
    depth: u8,
) -> Result<(), AllocError>
    requires { depth ≤ 8 }
    ensures { IfOk result (λ _. Adds (LinksInto depth member.now call.now) found.old.items found.new.items) }
{
    if call.caller != member.0 {
        return Ok(());
    }
    let objects = callee_objects(alloc, &call.site, &member.1, depth)?;
    add_members(found, call.callee, objects)
}

// Puts last what a call links an object of its callee to.
fn add_back(
    alloc: Global,
    found: &mut Vec<(u32, Object)>,
    call: &FollowedCall,
    member: &(u32, Object),
    depth: u8,
) -> Result<(), AllocError>
    requires { depth ≤ 8 }
    ensures { IfOk result (λ _. Adds (LinksBack depth member.now call.now) found.old.items found.new.items) }
{
    if call.callee != member.0 {
        return Ok(());
    }
    let objects = caller_objects(alloc, &call.site, &member.1, depth)?;
    add_members(found, call.caller, objects)
}

// Puts last what a call links an object of its caller or its callee to.
fn add_over(
    alloc: Global,
    found: &mut Vec<(u32, Object)>,
    call: &FollowedCall,
    member: &(u32, Object),
    depth: u8,
) -> Result<(), AllocError>
    requires { depth ≤ 8 }
    ensures { IfOk result (λ _. Adds (LinksOver depth member.now call.now) found.old.items found.new.items) }
{
    add_into(alloc, found, call, member, depth)?;
    add_back(alloc, found, call, member, depth)
}

/// Puts last what the calls of a function, and those into it, link an object of it to.
pub(crate) fn add_over_calls(
    alloc: Global,
    found: &mut Vec<(u32, Object)>,
    row: &FunctionRow,
    member: &(u32, Object),
    depth: u8,
) -> Result<(), AllocError>
    requires { depth ≤ 8 }
    ensures { IfOk result (λ _. Adds (SomeGives (LinksOver depth member.now) row.now.calls.items) found.old.items found.new.items) }
{
    for call in row.calls.as_slice() {
        add_over(alloc, found, call, member, depth)?;
    }
    Ok(())
}
