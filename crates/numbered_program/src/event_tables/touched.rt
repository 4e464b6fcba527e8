//! Which followed objects an event's move touches, and from which of them each has its state behind it.

ghost use Rattle.std.specs.Prelude.{◌≡◌, ◌≤◌, true, Some, IfOk};
ghost use Rattle.block_flows.specs.TupleFlows.Facts.{is_in};
ghost use Rattle.block_flows.specs.TupleFlows.Moved.{AreObjects};
ghost use Rattle.numbered_program.specs.EventTables.ObjectIndex.{IsIndexOf};
ghost use Rattle.numbered_program.specs.EventTables.Touched.{touched_at, touched_from, touched_rows, touched_with};
ghost use Rattle.flow_graph.specs.Values.{event_of};
ghost use Rattle.objects.specs.Equality.{same_object};
ghost use Rattle.objects.specs.Units.{facts_in};
ghost use Rattle.path_model.specs.CheckerModel.Moves.{move_of};
ghost use Rattle.std.specs.List.{filter_map};

use crate::event_tables::object_index::ObjectIndex;
use crate::event_tables::written::written;
use crate::numbered_tuples::Numbering;
use flow_graph::Event;
use objects::{Object, Origin};
use row_flows::Touched;
use std::alloc::{AllocError, Global};
use synonyms_kills::source_before;
use typed_unit::TypedUnit;

// Whether two objects are one.
fn is_same(source: &Object, object: &Object) -> bool
    ensures { result ≡ same_object source.now object.now }
{
    *source == *object
}

// The row of the followed object with a number that has its state from this one.
fn touched_from(
    numbering: &Numbering,
    number: u32,
    object: &Object,
    source: &Object,
) -> Option<Touched>
    ensures { result ≡ touched_from numbering.now.objects.now.keys number object.now (Some source.now) }
{
    if is_same(source, object) {
        return None;
    }
    Some(Touched {
        object: number,
        source: numbering.number(source),
    })
}

// What a move does to the followed object with a number, if it touches it.
fn touched_one(
    numbering: &Numbering,
    event: &Event,
    unit: &TypedUnit,
    depth: u8,
    number: u32,
    object: &Object,
) -> Option<Touched>
    requires { depth ≤ 8 }
    ensures { is_in numbering.now.objects.now.keys object.now ≡ true → result ≡ touched_at depth (move_of (facts_in unit.now) depth (event_of event.now)) numbering.now.objects.now.keys (number, object.now) }
{
    match source_before(event, unit, object, depth) {
        Origin::Same => None,
        Origin::From(source) => touched_from(numbering, number, object, &source),
        Origin::Nothing => Some(Touched {
            object: number,
            source: 0,
        }),
    }
}

// What a move does to the followed object with a number, if there is one and it touches it.
fn touched_with(
    numbering: &Numbering,
    event: &Event,
    unit: &TypedUnit,
    depth: u8,
    number: u32,
) -> Option<Touched>
    requires { depth ≤ 8 }
    ensures { result ≡ touched_with depth (move_of (facts_in unit.now) depth (event_of event.now)) numbering.now.objects.now.keys number }
{
    match numbering.object(number) {
        Some(object) => touched_one(numbering, event, unit, depth, number, object),
        None => None,
    }
}

// What a move does to the objects with these numbers that it touches.
fn touched_among(
    alloc: Global,
    numbering: &Numbering,
    event: &Event,
    unit: &TypedUnit,
    depth: u8,
    numbers: &[u32],
) -> Result<Vec<Touched>, AllocError>
    requires { depth ≤ 8 }
    ensures { IfOk result (λ rows. rows.items ≡ filter_map (touched_with depth (move_of (facts_in unit.now) depth (event_of event.now)) numbering.now.objects.now.keys) numbers.now) }
{
    let mut rows = Vec::new(alloc);
    for number in numbers {
        let Some(row) = touched_with(numbering, event, unit, depth, *number) else {
            continue;
        };
        rows.push(row)?;
    }
    Ok(rows)
}

/// What an event's move does to the followed objects that it touches, in the order of their numbers. Of many objects those alone are asked that
/// have the variable to which the event writes.
pub(crate) fn touched_rows(
    alloc: Global,
    numbering: &Numbering,
    index: &ObjectIndex,
    event: &Event,
    unit: &TypedUnit,
    depth: u8,
) -> Result<Vec<Touched>, AllocError>
    requires { depth ≤ 8 }
    ensures { IfOk result (λ rows. IsIndexOf numbering.now.objects.now.keys index.now → AreObjects depth numbering.now.objects.now.keys → rows.items ≡ touched_rows depth (move_of (facts_in unit.now) depth (event_of event.now)) numbering.now.objects.now.keys) }
{
    match written(event, unit, depth) {
        Some(v) => touched_among(alloc, numbering, event, unit, depth, index.with(v)),
        None => Ok(Vec::new(alloc)),
    }
}
