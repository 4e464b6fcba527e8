//! The sources of objects.

ghost use Rattle.std.specs.Prelude.{◌≡◌, ◌≤◌};
ghost use Rattle.std.specs.Option.{option_map};
ghost use Rattle.path_model.specs.CheckerModel.Moves.{under, indexes, copied, source_of, move_of, source};
ghost use Rattle.flow_graph.specs.Values.{event_of};
ghost use Rattle.objects.specs.Origins.{origin_of};
ghost use Rattle.objects.specs.Selectors.{selectors_of};
ghost use Rattle.objects.specs.Units.{facts_in};
ghost use Rattle.synonyms_kills.specs.Values.{move_in};

use crate::moves::{Move, move_of};
use flow_graph::Event;
use objects::{Object, Origin, Selector, has_access, is_indexed_by, is_object, rebase, rest};
use typed_unit::TypedUnit;

// The steps by which an object lies under a path that is written over: it goes on behind it, or is the address of what does so by way of
// `*` or an index.
pub(crate) fn under<'a>(path: &Object, object: &'a Object) -> Option<&'a [Selector]>
    ensures { option_map (λ steps. selectors_of steps.now) result ≡ under path.now object.now }
{
    let steps = rest(object, path)?;
    if !object.is_address() || has_access(steps) {
        Some(steps)
    } else {
        None
    }
}

// Whether a path is a variable that is an index in these steps.
pub(crate) fn indexes(path: &Object, steps: &[Selector]) -> bool
    ensures { result ≡ indexes path.now (selectors_of steps.now) }
{
    path.selectors().is_empty() && is_indexed_by(steps, path.base())
}

// The source of an object that lies by these steps under what is written over.
fn copied(change: &Move, object: &Object, steps: &[Selector], depth: u8) -> Origin
    requires { depth ≤ 8 }
    ensures { origin_of object.now result ≡ copied depth (move_in change.now) object.now (selectors_of steps.now) }
{
    if indexes(&change.to, steps) {
        return Origin::Nothing;
    }
    let Some(from) = &change.from else {
        return Origin::Nothing;
    };
    match rebase(object, &change.to, from, depth) {
        Some(source) => Origin::From(source),
        None => Origin::Nothing,
    }
}

// The source of an object under a move.
fn source_of(change: &Move, object: &Object, depth: u8) -> Origin
    requires { depth ≤ 8 }
    ensures { origin_of object.now result ≡ source_of depth (move_in change.now) object.now }
{
    match under(&change.to, object) {
        Some(steps) => copied(change, object, steps, depth),
        None => {
            if indexes(&change.to, object.selectors()) {
                Origin::Nothing
            } else {
                Origin::Same
            }
        }
    }
}

/// The object whose state before an event's move an object has behind it, among the objects at this depth: kills and synonyms (Hallem,
/// Chelf, Xie and Engler, PLDI 2002). It takes no memory.
pub fn source_before(event: &Event, unit: &TypedUnit, object: &Object, depth: u8) -> Origin
    requires { depth ≤ 8 }
    ensures { origin_of object.now result ≡ source depth (move_of (facts_in unit.now) depth (event_of event.now)) object.now }
{
    if !is_object(object, depth) {
        return Origin::Nothing;
    }
    match move_of(unit, event, depth) {
        None => Origin::Same,
        Some(change) => source_of(&change, object, depth),
    }
}
