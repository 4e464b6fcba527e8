//! Links at events.

ghost use Rattle.std.specs.Prelude.{◌≤◌, IfOk};
ghost use Rattle.flow_graph.specs.Values.{event_of};
ghost use Rattle.least_set.specs.Logs.{Adds, SomeGives};
ghost use Rattle.relevant.specs.RelevantObjects.Links.{LinksAt, LinksToItself, HasItself};

use crate::linked_objects::linked_at;
use crate::relevant_objects::members::add_members;
use crate::relevant_objects::rows::FunctionRow;
use flow_graph::Event;
use objects::{Object, copy, is_object};
use std::alloc::{AllocError, Global};
use synonyms_kills::is_move;
use typed_unit::TypedUnit;

// Puts last what an event links an object of a function to.
fn add_at(
    alloc: Global,
    found: &mut Vec<(u32, Object)>,
    event: &Event,
    unit: &TypedUnit,
    member: &(u32, Object),
    depth: u8,
) -> Result<(), AllocError>
    requires { depth ≤ 8 }
    ensures { IfOk result (λ _. Adds (LinksAt depth unit.now member.now event.now) found.old.items found.new.items) }
{
    let objects = linked_at(alloc, event, unit, &member.1, depth)?;
    add_members(found, member.0, objects)
}

// Puts an object of a function last, if it is an object at this depth, unless it is there since an event at which it `stays`.
fn add_itself(
    found: &mut Vec<(u32, Object)>,
    stays: bool,
    member: &(u32, Object),
    depth: u8,
) -> Result<(), AllocError>
    requires { HasItself depth stays member.now found.old.items }
    ensures { IfOk result (λ _. Adds (LinksToItself depth member.now) found.old.items found.new.items) }
{
    if stays {
        return Ok(());
    }
    if !is_object(&member.1, depth) {
        return Ok(());
    }
    found.push((member.0, copy(&member.1)))?;
    Ok(())
}

// Puts last what an event links an object of a function to. An event that moves nothing links it to itself alone, which is put once:
// `stays` says whether an event before this one moved nothing, and the result whether this one or one before it did.
fn add_unless_there(
    alloc: Global,
    found: &mut Vec<(u32, Object)>,
    stays: bool,
    event: &Event,
    unit: &TypedUnit,
    member: &(u32, Object),
    depth: u8,
) -> Result<bool, AllocError>
    requires low { depth ≤ 8 }
    requires there { HasItself depth stays member.now found.old.items }
    ensures adds { IfOk result (λ _. Adds (LinksAt depth unit.now member.now event.now) found.old.items found.new.items) }
    ensures there { IfOk result (λ now_stays. HasItself depth now_stays member.now found.new.items) }
{
    if is_move(event, unit, depth) {
        add_at(alloc, found, event, unit, member, depth)?;
        return Ok(stays);
    }
    add_itself(found, stays, member, depth)?;
    Ok(true)
}

/// Puts last what the events of a function link an object of it to.
pub(crate) fn add_at_events(
    alloc: Global,
    found: &mut Vec<(u32, Object)>,
    row: &FunctionRow,
    member: &(u32, Object),
    depth: u8,
) -> Result<(), AllocError>
    requires { depth ≤ 8 }
    ensures { IfOk result (λ _. Adds (SomeGives (LinksAt depth row.now.unit.now member.now) row.now.events.items) found.old.items found.new.items) }
{
    let mut stays = false;
    for event in row.events.as_slice() {
        stays = add_unless_there(alloc, found, stays, event, row.unit, member, depth)?;
    }
    Ok(())
}
