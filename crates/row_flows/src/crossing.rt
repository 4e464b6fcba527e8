//! Over the events of a block.

ghost use Rattle.std.specs.Prelude.{◌≡◌, ◌++◌, flat_map, IfOk, Contains};
ghost use Rattle.least_set.specs.Logs.{Adds, IsExactly, IsOnce, SomeGives};
ghost use Rattle.row_flows.specs.Behind.{behind, firings};
ghost use Rattle.row_flows.specs.Calm.{are_calm};
ghost use Rattle.row_flows.specs.Crossing.{ends, shown};

use crate::behind::{Firing, behind, firings};
use crate::calm::is_calm;
use crate::rows::EventRow;
use crate::tuples::NumberedTuple;
use indexmap::IndexSet;
use least_set::Key;
use std::alloc::{AllocError, Global};

/// What a tuple at the head of a block leads to.
#[derive(Drop)]
pub struct Crossed {
    /// The tuples at the end of the block, each once.
    pub tuples: Vec<NumberedTuple>,
    /// The alternatives of rules with an action that are taken on the way.
    pub firings: Vec<Firing>,
}

// Puts last those that aren't there yet.
fn add_all<T: Key>(set: &mut IndexSet<T>, found: Vec<T>) -> Result<(), AllocError>
    ensures { IfOk result (λ _. Adds (Contains found.items) set.old.keys set.new.keys) }
{
    for value in found {
        set.insert(value)?;
    }
    Ok(())
}

// The values of a set, each once.
fn items<T: Key>(set: &IndexSet<T>) -> &[T]
    ensures keys { result.now ≡ set.now.keys }
    ensures once { IsOnce result.now }
{
    set.as_slice()
}

// Each of these tuples once. Mostly there is one.
fn distinct(alloc: Global, tuples: Vec<NumberedTuple>) -> Result<Vec<NumberedTuple>, AllocError>
    ensures exactly { IfOk result (λ list. IsExactly list.items (Contains tuples.items)) }
    ensures once { IfOk result (λ list. IsOnce list.items) }
{
    if tuples.len() <= 1 {
        return Ok(tuples);
    }
    let mut set = IndexSet::new(alloc);
    add_all(&mut set, tuples)?;
    let list = items(&set).to_vec(alloc)?;
    Ok(list)
}

// Whether an event leaves each of these tuples calm.
fn are_calm(row: &EventRow, tuples: &[NumberedTuple]) -> bool
    ensures { result ≡ are_calm row.now tuples.now }
{
    tuples.iter().all(|tuple| is_calm(row, tuple.object))
}

// The tuples behind an event of those that stand before it.
fn all_behind(
    alloc: Global,
    row: &EventRow,
    is_root: bool,
    own: &[bool],
    tuples: &[NumberedTuple],
) -> Result<Vec<NumberedTuple>, AllocError>
    ensures { IfOk result (λ list. list.items ≡ flat_map (behind row.now is_root own.now) tuples.now) }
{
    let mut list = Vec::new(alloc);
    for tuple in tuples {
        let mut found = behind(alloc, row, is_root, own, *tuple)?;
        list.append(&mut found)?;
    }
    Ok(list)
}

// The same, each once.
fn next(
    alloc: Global,
    row: &EventRow,
    is_root: bool,
    own: &[bool],
    tuples: &[NumberedTuple],
) -> Result<Vec<NumberedTuple>, AllocError>
    ensures exactly { IfOk result (λ list. IsExactly list.items (SomeGives (λ t. Contains (behind row.now is_root own.now t)) tuples.now)) }
    ensures once { IfOk result (λ list. IsOnce list.items) }
{
    let found = all_behind(alloc, row, is_root, own, tuples)?;
    let list = distinct(alloc, found)?;
    Ok(list)
}

// Notes the firings at the event with this number of the tuples that stand before it.
fn note_firings(
    list: &mut Vec<Firing>,
    alloc: Global,
    event: usize,
    row: &EventRow,
    is_root: bool,
    own: &[bool],
    tuples: &[NumberedTuple],
) -> Result<(), AllocError>
    ensures { IfOk result (λ _. list.new.items ≡ list.old.items ++ flat_map (firings event row.now is_root own.now) tuples.now) }
{
    for tuple in tuples {
        let mut found = firings(alloc, event, row, is_root, own, *tuple)?;
        list.append(&mut found)?;
    }
    Ok(())
}

/// What a tuple at the head of a block leads to over its events, whose rows these are, in a root's own frame or in a called one. For each
/// followed object it is said in turn whether it is the function's own.
pub fn cross(
    alloc: Global,
    rows: &[EventRow],
    is_root: bool,
    own: &[bool],
    tuple: NumberedTuple,
) -> Result<Crossed, AllocError>
    ensures tuples { IfOk result (λ e. IsExactly e.tuples.items (Contains (ends rows.now is_root own.now tuple))) }
    ensures once { IfOk result (λ e. IsOnce e.tuples.items) }
    ensures firings { IfOk result (λ e. IsExactly e.firings.items (Contains (shown 0 rows.now is_root own.now tuple))) }
{
    let mut now = vec![in alloc; tuple]?;
    let mut found = Vec::new(alloc);
    for (event, row) in rows.iter().enumerate() {
        if are_calm(row, now.as_slice()) {
            continue;
        }
        note_firings(&mut found, alloc, event, row, is_root, own, now.as_slice())?;
        let behind = next(alloc, row, is_root, own, now.as_slice())?;
        now = behind;
    }
    Ok(Crossed {
        tuples: now,
        firings: found,
    })
}
