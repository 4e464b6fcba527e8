//! Objects that are linked at events.

ghost use Rattle.std.specs.Prelude.{◌≤◌, IfOk};
ghost use Rattle.flow_graph.specs.Values.{event_of};
ghost use Rattle.least_set.specs.Logs.{IsExactly};
ghost use Rattle.relevant.specs.LinkedObjects.Linked.{AreLinkedAt};
ghost use Rattle.objects.specs.Units.{facts_in};

use crate::linked_objects::lists::{add, named};
use flow_graph::Event;
use objects::Object;
use std::alloc::{AllocError, Global};
use synonyms_kills::{source_before, targets_after};
use typed_unit::TypedUnit;

/// The objects that take their state at an event from this one, or from which it takes its own.
pub fn linked_at(
    alloc: Global,
    event: &Event,
    unit: &TypedUnit,
    object: &Object,
    depth: u8,
) -> Result<Vec<Object>, AllocError>
    requires { depth ≤ 8 }
    ensures { IfOk result (λ list. IsExactly list.items (AreLinkedAt (facts_in unit.now) depth object.now (event_of event.now))) }
{
    let mut found = targets_after(alloc, event, unit, object, depth)?;
    let source = named(object, source_before(event, unit, object, depth));
    add(&mut found, source)?;
    Ok(found)
}
