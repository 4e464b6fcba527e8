//! The targets of objects.

ghost use Rattle.std.specs.Prelude.{◌≡◌, ◌≤◌, IfOk};
ghost use Rattle.std.specs.Option.{option_map};
ghost use Rattle.path_model.specs.CheckerModel.Moves.{move_of};
ghost use Rattle.flow_graph.specs.Values.{event_of};
ghost use Rattle.objects.specs.Units.{facts_in};
ghost use Rattle.synonyms_kills.specs.Targets.{AreTargets, stays, if_copied, copy_of, targets};
ghost use Rattle.synonyms_kills.specs.Values.{move_in};

use crate::moves::{Move, move_of};
use crate::sources::{indexes, under};
use flow_graph::Event;
use objects::{Object, copy, is_object, replaced};
use std::alloc::{AllocError, Global};
use typed_unit::TypedUnit;

// Whether an object keeps its own state under a move.
fn stays(change: &Move, object: &Object) -> bool
    ensures { result ≡ stays (move_in change.now) object.now }
{
    match under(&change.to, object) {
        Some(_) => false,
        None => !indexes(&change.to, object.selectors()),
    }
}

// An object to which a state is copied, unless an index of it changes.
fn if_copied(change: &Move, target: Object) -> Option<Object>
    ensures { result ≡ if_copied (move_in change.now) target }
{
    match under(&change.to, &target) {
        Some(steps) => {
            if indexes(&change.to, steps) {
                return None;
            }
        }
        None => return None,
    }
    Some(target)
}

// The object to which the state of this one is copied.
fn copy_of(change: &Move, object: &Object, depth: u8) -> Option<Object>
    requires { depth ≤ 8 }
    ensures { result ≡ copy_of depth (move_in change.now) object.now }
{
    let Some(from) = &change.from else {
        return None;
    };
    let target = replaced(object, &change.to, from, depth)?;
    if_copied(change, target)
}

// The targets of an object under a move, if there is one.
fn targets(
    alloc: Global,
    change: &Option<Move>,
    object: &Object,
    depth: u8,
) -> Result<Vec<Object>, AllocError>
    requires { depth ≤ 8 }
    ensures { IfOk result (λ list. list.items ≡ targets depth (option_map move_in change.now) object.now) }
{
    let mut list = Vec::new(alloc);
    let Some(change) = change else {
        list.push(copy(object))?;
        return Ok(list);
    };
    if stays(change, object) {
        list.push(copy(object))?;
    }
    if let Some(target) = copy_of(change, object, depth) {
        list.push(target)?;
    }
    Ok(list)
}

/// The objects at this depth whose source an object is at an event: those that have its state behind the event's move, each once.
#[tactic(auto, using(crate::proofs::CopiedStates::are_targets, crate::proofs::CopiedStates::no_targets))]
pub fn targets_after(
    alloc: Global,
    event: &Event,
    unit: &TypedUnit,
    object: &Object,
    depth: u8,
) -> Result<Vec<Object>, AllocError>
    requires { depth ≤ 8 }
    ensures { IfOk result (λ list. AreTargets depth (move_of (facts_in unit.now) depth (event_of event.now)) object.now list.items) }
{
    if !is_object(object, depth) {
        return Ok(Vec::new(alloc));
    }
    let change = move_of(unit, event, depth);
    targets(alloc, &change, object, depth)
}
