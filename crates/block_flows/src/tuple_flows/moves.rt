//! Tuples behind the moves of events.

ghost use Rattle.std.specs.Prelude.{◌≡◌, ◌≤◌, true, None, Some, is_none, IfOk};
ghost use Rattle.path_model.specs.CheckerModel.Moves.{move_of};
ghost use Rattle.flow_graph.specs.Values.{event_of};
ghost use Rattle.least_set.specs.Logs.{IsExactly, SomeGives};
ghost use Rattle.objects.specs.Units.{facts_in};
ghost use Rattle.block_flows.specs.TupleFlows.Moved.{AreObjects, IsMoved, source_in};
ghost use Rattle.block_flows.specs.TupleFlows.Facts.{is_in, with_object};

use crate::tuple_flows::parts::{is_followed, with_followed, with_object, without_object};
use flow_graph::Event;
use indexmap::IndexSet;
use objects::{Object, Origin, copy};
use state_tuples::Tuple;
use std::alloc::{AllocError, Global};
use synonyms_kills::{is_move, source_before, targets_after};
use typed_unit::TypedUnit;

// Whether an object that is followed is unknown behind an event's move, whatever stood before: it has its state from none, or from one that
// isn't followed.
fn is_unknown(
    event: &Event,
    unit: &TypedUnit,
    object: &Object,
    depth: u8,
    followed: &IndexSet<Object>,
) -> bool
    requires { depth ≤ 8 }
    ensures { is_in followed.now.keys object.now ≡ true → result ≡ is_none (source_in depth (move_of (facts_in unit.now) depth (event_of event.now)) followed.now.keys object.now) }
{
    match source_before(event, unit, object, depth) {
        Origin::Same => false,
        Origin::From(source) => !is_followed(followed, &source),
        Origin::Nothing => true,
    }
}

// Those of the followed objects that are unknown behind an event's move, in the states of a tuple.
fn unknown(
    alloc: Global,
    event: &Event,
    unit: &TypedUnit,
    depth: u8,
    tuple: &Tuple,
    followed: &IndexSet<Object>,
) -> Result<Vec<Tuple>, AllocError>
    requires { depth ≤ 8 }
    ensures { IfOk result (λ list. IsExactly list.items (SomeGives (λ o u. (source_in depth (move_of (facts_in unit.now) depth (event_of event.now)) followed.now.keys o ≡ None) × (with_object tuple.now o ≡ u)) followed.now.keys)) }
{
    let mut list = Vec::new(alloc);
    let objects = followed.as_slice();
    for object in objects {
        if is_unknown(event, unit, object, depth, followed) {
            list.push(with_object(tuple, copy(object)))?;
        }
    }
    Ok(list)
}

// The same where all that are followed are objects: at an event that moves nothing none of them is asked.
fn made_unknown(
    alloc: Global,
    event: &Event,
    unit: &TypedUnit,
    depth: u8,
    tuple: &Tuple,
    followed: &IndexSet<Object>,
) -> Result<Vec<Tuple>, AllocError>
    requires { depth ≤ 8 }
    ensures { IfOk result (λ list. AreObjects depth followed.now.keys → IsExactly list.items (SomeGives (λ o u. (source_in depth (move_of (facts_in unit.now) depth (event_of event.now)) followed.now.keys o ≡ None) × (with_object tuple.now o ≡ u)) followed.now.keys)) }
{
    if is_move(event, unit, depth) {
        return unknown(alloc, event, unit, depth, tuple, followed);
    }
    Ok(Vec::new(alloc))
}

// The tuples behind an event's move of one without an object.
fn moved_none(
    alloc: Global,
    event: &Event,
    unit: &TypedUnit,
    depth: u8,
    tuple: &Tuple,
    followed: &IndexSet<Object>,
) -> Result<Vec<Tuple>, AllocError>
    requires { depth ≤ 8 }
    ensures { IfOk result (λ list. tuple.now.object ≡ None → AreObjects depth followed.now.keys → IsExactly list.items (IsMoved depth (move_of (facts_in unit.now) depth (event_of event.now)) followed.now.keys tuple.now)) }
{
    let mut list = made_unknown(alloc, event, unit, depth, tuple, followed)?;
    list.push(without_object(tuple))?;
    Ok(list)
}

// Those of the followed objects that have their state from this one behind an event's move, in the states of a tuple; none where this one
// isn't followed.
fn taking(
    alloc: Global,
    event: &Event,
    unit: &TypedUnit,
    depth: u8,
    tuple: &Tuple,
    object: &Object,
    followed: &IndexSet<Object>,
) -> Result<Vec<Tuple>, AllocError>
    requires { depth ≤ 8 }
    ensures { IfOk result (λ list. IsExactly list.items (SomeGives (λ o u. (source_in depth (move_of (facts_in unit.now) depth (event_of event.now)) followed.now.keys o ≡ Some object.now) × (with_object tuple.now o ≡ u)) followed.now.keys)) }
{
    if !is_followed(followed, object) {
        return Ok(Vec::new(alloc));
    }
    let targets = targets_after(alloc, event, unit, object, depth)?;
    with_followed(alloc, tuple, targets.as_slice(), followed)
}

/// The tuples behind an event's move, before any rule is taken: of a tuple with an object those of the followed ones that have their state
/// from it, and of one without an object that one, and the followed objects that are unknown there. Those that are followed are objects at
/// this depth. An event that moves nothing takes constant time.
pub fn moved(
    alloc: Global,
    event: &Event,
    unit: &TypedUnit,
    depth: u8,
    tuple: &Tuple,
    followed: &IndexSet<Object>,
) -> Result<Vec<Tuple>, AllocError>
    requires { depth ≤ 8 }
    ensures { IfOk result (λ list. AreObjects depth followed.now.keys → IsExactly list.items (IsMoved depth (move_of (facts_in unit.now) depth (event_of event.now)) followed.now.keys tuple.now)) }
{
    match &tuple.object {
        Some(object) => taking(alloc, event, unit, depth, tuple, object, followed),
        None => moved_none(alloc, event, unit, depth, tuple, followed),
    }
}
