//! Tuples behind an event, and what is noted of the alternatives that are taken there.

ghost use Rattle.std.specs.Prelude.{◌≡◌, ◌++◌, flat_map, option_copied, slice_get, IfOk};
ghost use Rattle.std.specs.List.{list_any};
ghost use Rattle.row_flows.specs.Behind.{behind, chosen, fired, firings, given, if_kept, moved, noted, noted_at, touches};

use crate::choices::{next_global, next_state, taken_place};
use crate::rows::{Applied, EventRow, Touched};
use crate::tuples::NumberedTuple;
use std::alloc::{AllocError, Global};

/// An alternative of a rule with an action that is taken.
#[derive(Clone, Copy, Debug, PartialEq, Eq, Hash)]
pub struct Firing {
    /// The number of the event at which it is, among those of the block, from 0.
    pub event: usize,
    /// The number of the object that takes it; 0 where the global state does.
    pub object: u32,
    /// Its place among the alternatives that apply at the event, from 0.
    pub place: usize,
}

// Whether the move of an event touches the object with a number.
fn is_touched(touched: &[Touched], object: u32) -> bool
    ensures { result ≡ list_any (touches object) touched.now }
{
    touched.iter().any(|one| one.object == object)
}

// Adds the tuple of a touched object, if it has its state from this tuple's object.
fn add_one(
    list: &mut Vec<NumberedTuple>,
    tuple: NumberedTuple,
    touched: &Touched,
) -> Result<(), AllocError>
    ensures { IfOk result (λ _. list.new.items ≡ list.old.items ++ given tuple touched.now) }
{
    if touched.source == tuple.object {
        list.push(NumberedTuple {
            global: tuple.global,
            state: tuple.state,
            object: touched.object,
        })?;
    }
    Ok(())
}

/// Adds the tuples of touched objects that have their state from this tuple's object.
pub fn add_given(
    list: &mut Vec<NumberedTuple>,
    tuple: NumberedTuple,
    touched: &[Touched],
) -> Result<(), AllocError>
    ensures { IfOk result (λ _. list.new.items ≡ list.old.items ++ flat_map (given tuple) touched.now) }
{
    for one in touched {
        add_one(list, tuple, one)?;
    }
    Ok(())
}

// The tuple itself, if its object isn't touched.
fn if_kept(
    alloc: Global,
    tuple: NumberedTuple,
    is_touched: bool,
) -> Result<Vec<NumberedTuple>, AllocError>
    ensures { IfOk result (λ list. list.items ≡ if_kept tuple is_touched) }
{
    let mut list = Vec::new(alloc);
    if !is_touched {
        list.push(tuple)?;
    }
    Ok(list)
}

/// The tuples behind an event's move.
fn moved(
    alloc: Global,
    row: &EventRow,
    tuple: NumberedTuple,
) -> Result<Vec<NumberedTuple>, AllocError>
    ensures { IfOk result (λ list. list.items ≡ moved row.now tuple) }
{
    let is_touched = is_touched(row.touched.as_slice(), tuple.object);
    let mut list = if_kept(alloc, tuple, is_touched)?;
    add_given(&mut list, tuple, row.touched.as_slice())?;
    Ok(list)
}

// Behind the choice.
fn chosen(
    row: &EventRow,
    is_root: bool,
    own: &[bool],
    next: u16,
    tuple: NumberedTuple,
) -> NumberedTuple
    ensures { result ≡ chosen row.now is_root own.now next tuple }
{
    NumberedTuple {
        global: next,
        state: next_state(row, is_root, own, tuple),
        object: tuple.object,
    }
}

/// The tuples behind an event of one that stands before it.
pub(crate) fn behind(
    alloc: Global,
    row: &EventRow,
    is_root: bool,
    own: &[bool],
    tuple: NumberedTuple,
) -> Result<Vec<NumberedTuple>, AllocError>
    ensures { IfOk result (λ list. list.items ≡ behind row.now is_root own.now tuple) }
{
    let next = next_global(row, is_root, own, tuple.global);
    let before = moved(alloc, row, tuple)?;
    let mut list = Vec::new(alloc);
    for tuple in before.as_slice() {
        list.push(chosen(row, is_root, own, next, *tuple))?;
    }
    Ok(list)
}

// Notes an alternative that is taken, if its rule has an action.
fn note(
    list: &mut Vec<Firing>,
    event: usize,
    object: u32,
    place: usize,
    applied: &Applied,
) -> Result<(), AllocError>
    ensures { IfOk result (λ _. list.new.items ≡ list.old.items ++ noted event object place applied.now) }
{
    if applied.has_action {
        list.push(Firing {
            event,
            object,
            place,
        })?;
    }
    Ok(())
}

// The one at a place.
fn applied_at(applied: &[Applied], place: usize) -> Option<&Applied>
    ensures { option_copied result ≡ slice_get applied.now place }
{
    applied.get(place)
}

// Notes the one at a place.
fn note_at(
    list: &mut Vec<Firing>,
    event: usize,
    object: u32,
    applied: &[Applied],
    place: usize,
) -> Result<(), AllocError>
    ensures { IfOk result (λ _. list.new.items ≡ list.old.items ++ noted_at event object applied.now place) }
{
    match applied_at(applied, place) {
        Some(applied) => note(list, event, object, place, applied),
        None => Ok(()),
    }
}

// Notes what a tuple behind the move takes at the event with this number.
fn note_fired(
    list: &mut Vec<Firing>,
    event: usize,
    row: &EventRow,
    is_root: bool,
    own: &[bool],
    tuple: NumberedTuple,
) -> Result<(), AllocError>
    ensures { IfOk result (λ _. list.new.items ≡ list.old.items ++ fired event row.now is_root own.now tuple) }
{
    match taken_place(row, is_root, own, tuple) {
        Some(place) => note_at(list, event, tuple.object, row.applied.as_slice(), place),
        None => Ok(()),
    }
}

/// The firings at the event with this number of a tuple that stands before it.
pub(crate) fn firings(
    alloc: Global,
    event: usize,
    row: &EventRow,
    is_root: bool,
    own: &[bool],
    tuple: NumberedTuple,
) -> Result<Vec<Firing>, AllocError>
    ensures { IfOk result (λ list. list.items ≡ firings event row.now is_root own.now tuple) }
{
    let before = moved(alloc, row, tuple)?;
    let mut list = Vec::new(alloc);
    for tuple in before.as_slice() {
        note_fired(&mut list, event, row, is_root, own, *tuple)?;
    }
    Ok(list)
}
