//! Which alternative is taken at an event.

ghost use Rattle.std.specs.Prelude.{◌≡◌, option_copied, position};
ghost use Rattle.row_flows.specs.Choices.{bare, begins_globally, begins_known, global_behind, global_takes, is_asked, known_takes, leads_globally, next_global, next_state, state_behind, taken, taken_place, takes, unknown_takes};
ghost use Rattle.row_flows.specs.Numbers.{is_own};

use crate::rows::{Applied, EventRow, NumberedSource, NumberedTarget};
use crate::tuples::NumberedTuple;

/// Whether this is said of the object with a number, where it is said for each object in turn; it isn't of 0, which is no object.
pub fn is_own(own: &[bool], object: u32) -> bool
    ensures { result ≡ is_own own.now object }
{
    if object == 0 {
        return false;
    }
    match own.get(object as usize - 1) {
        Some(own) => *own,
        None => false,
    }
}

// Whether a rule begins in this global state.
fn begins_globally(global: u16, source: NumberedSource) -> bool
    ensures { result ≡ begins_globally global source }
{
    match source {
        NumberedSource::Global(state) => state == global,
        NumberedSource::Object(_) => false,
    }
}

// Whether a rule begins in this state of an object.
fn begins_known(known: u16, source: NumberedSource) -> bool
    ensures { result ≡ begins_known known source }
{
    match source {
        NumberedSource::Global(_) => false,
        NumberedSource::Object(state) => state == known,
    }
}

// Whether a rule leads to a global state.
pub(crate) fn leads_globally(target: NumberedTarget) -> bool
    ensures { result ≡ leads_globally target }
{
    match target {
        NumberedTarget::Global(_) => true,
        NumberedTarget::Object(_) => false,
    }
}

// Whether the global state takes it.
fn global_takes(global: u16, applied: &Applied) -> bool
    ensures { result ≡ global_takes global applied.now }
{
    begins_globally(global, applied.source) && leads_globally(applied.target)
}

// Whether an unknown object takes it.
fn unknown_takes(global: u16, object: u32, applied: &Applied) -> bool
    ensures { result ≡ unknown_takes global object applied.now }
{
    begins_globally(global, applied.source)
        && !leads_globally(applied.target)
        && applied.object == object
}

// Whether an object in this state takes it.
fn known_takes(is_exit: bool, state: u16, object: u32, applied: &Applied) -> bool
    ensures { result ≡ known_takes is_exit state object applied.now }
{
    begins_known(state, applied.source) && (is_exit || applied.object == object)
}

// Whether the object of a tuple takes it, or the global state where it has none.
fn takes(is_exit: bool, tuple: NumberedTuple, applied: &Applied) -> bool
    ensures { result ≡ takes is_exit tuple applied.now }
{
    if tuple.object == 0 {
        return global_takes(tuple.global, applied);
    }
    if tuple.state == 0 {
        return unknown_takes(tuple.global, tuple.object, applied);
    }
    known_takes(is_exit, tuple.state, tuple.object, applied)
}

// The place of the first of these that it takes.
fn first_place(is_exit: bool, tuple: NumberedTuple, applied: &[Applied]) -> Option<usize>
    ensures { result ≡ position (takes is_exit tuple) applied.now }
{
    applied.iter().position(|one| takes(is_exit, tuple, one))
}

// Whether the object with a number, or the global state, is asked at an event.
fn is_asked(row: &EventRow, is_root: bool, own: &[bool], object: u32) -> bool
    ensures { result ≡ is_asked row.now is_root own.now object }
{
    !row.is_exit || is_root || is_own(own, object)
}

/// The place of the alternative that is taken by a tuple behind an event's move.
pub(crate) fn taken_place(
    row: &EventRow,
    is_root: bool,
    own: &[bool],
    tuple: NumberedTuple,
) -> Option<usize>
    ensures { result ≡ taken_place row.now is_root own.now tuple }
{
    if tuple.global == 1 || !is_asked(row, is_root, own, tuple.object) {
        return None;
    }
    first_place(row.is_exit, tuple, row.applied.as_slice())
}

// The alternative that is taken by a tuple behind an event's move.
fn taken<'r>(
    row: &'r EventRow,
    is_root: bool,
    own: &[bool],
    tuple: NumberedTuple,
) -> Option<&'r Applied>
    ensures { option_copied result ≡ taken row.now is_root own.now tuple }
{
    let place = taken_place(row, is_root, own, tuple)?;
    row.applied.get(place)
}

// The global state to which an alternative leads.
fn global_behind(target: NumberedTarget, global: u16) -> u16
    ensures { result ≡ global_behind target global }
{
    match target {
        NumberedTarget::Global(state) => state,
        NumberedTarget::Object(_) => global,
    }
}

// The state of an object to which an alternative leads.
fn state_behind(target: NumberedTarget, state: u16) -> u16
    ensures { result ≡ state_behind target state }
{
    match target {
        NumberedTarget::Global(_) => state,
        NumberedTarget::Object(behind) => behind,
    }
}

/// The tuple of a global state alone.
pub fn bare(global: u16) -> NumberedTuple
    ensures { result ≡ bare global }
{
    NumberedTuple {
        global,
        state: 0,
        object: 0,
    }
}

/// The global state behind an event.
pub(crate) fn next_global(row: &EventRow, is_root: bool, own: &[bool], global: u16) -> u16
    ensures { result ≡ next_global row.now is_root own.now global }
{
    match taken(row, is_root, own, bare(global)) {
        Some(applied) => global_behind(applied.target, global),
        None => global,
    }
}

/// The state behind an event of the object of a tuple behind the event's move.
pub(crate) fn next_state(row: &EventRow, is_root: bool, own: &[bool], tuple: NumberedTuple) -> u16
    ensures { result ≡ next_state row.now is_root own.now tuple }
{
    match taken(row, is_root, own, tuple) {
        Some(applied) => state_behind(applied.target, tuple.state),
        None => tuple.state,
    }
}
