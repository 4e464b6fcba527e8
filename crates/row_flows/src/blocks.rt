//! The rows of the events of a block, and which objects they concern.

ghost use Rattle.std.specs.Prelude.{◌≡◌, ◌++◌, ℕ, nat_eq, false, true, flat_map, IfOk, IsTrue};
ghost use Rattle.std.specs.List.{list_any};
ghost use Rattle.row_flows.specs.Concerns.{all_calm, bound_numbers, concerned_by, row_stirs, stirs};
ghost use Rattle.row_flows.specs.ConcernedObjects.{numbers_in};

use crate::calm::begins_in_object;
use crate::choices::leads_globally;
use crate::concerned_objects::{ConcernedObjects, is_among, kept};
use crate::rows::{Applied, EventRow, Touched};
use std::alloc::{AllocError, Global};

/// The rows of the events of a block. Which objects they concern is found once.
#[derive(Drop)]
pub struct BlockRows {
    pub rows: Vec<EventRow>,
    // the numbers of those that a row concerns
    concerned: ConcernedObjects,
    // whether some alternative may be taken by others than the object that it has bound
    stirs: bool,
    ghost calm: { (n : ℕ) → list_any (nat_eq n) (numbers_in concerned) ≡ false → stirs ≡ false → all_calm n rows.items ≡ true },
}

// Whether others than the object that an alternative has bound may take it.
fn stirs(is_exit: bool, applied: &Applied) -> bool
    ensures { result ≡ stirs is_exit applied.now }
{
    leads_globally(applied.target) || (is_exit && begins_in_object(applied.source))
}

// Whether others than the objects that its alternatives have bound may take one of them.
fn row_stirs(row: &EventRow) -> bool
    ensures { result ≡ row_stirs row.now }
{
    row.applied
        .iter()
        .any(|applied| stirs(row.is_exit, applied))
}

// Whether some row does.
fn some_stirs(rows: &[EventRow]) -> bool
    ensures { result ≡ list_any row_stirs rows.now }
{
    rows.iter().any(|row| row_stirs(row))
}

// Collects the number of the object that an alternative has bound, if it has bound one that is followed.
fn add_bound(list: &mut Vec<u32>, applied: &Applied) -> Result<(), AllocError>
    ensures { IfOk result (λ _. list.new.items ≡ list.old.items ++ bound_numbers applied.now) }
{
    if applied.object == 0 {
        return Ok(());
    }
    list.push(applied.object)?;
    Ok(())
}

// Collects the numbers of the objects that an event concerns.
fn add_concerned(list: &mut Vec<u32>, row: &EventRow) -> Result<(), AllocError>
    ensures { IfOk result (λ _. list.new.items ≡ list.old.items ++ concerned_by row.now) }
{
    for touched in row.touched.as_slice() {
        list.push(touched.object)?;
        list.push(touched.source)?;
    }
    for applied in row.applied.as_slice() {
        add_bound(list, applied)?;
    }
    Ok(())
}

// Those of the objects that events concern.
fn all_concerned(alloc: Global, rows: &[EventRow]) -> Result<Vec<u32>, AllocError>
    ensures { IfOk result (λ list. list.items ≡ flat_map concerned_by rows.now) }
{
    let mut list = Vec::new(alloc);
    for row in rows {
        add_concerned(&mut list, row)?;
    }
    Ok(list)
}

impl BlockRows {
    /// A block with events of these rows.
    pub fn new(alloc: Global, rows: Vec<EventRow>) -> Result<BlockRows, AllocError>
        ensures { IfOk result (λ b. b.rows.items ≡ rows.items) }
    {
        let numbers = all_concerned(alloc, rows.as_slice())?;
        let concerned = kept(alloc, numbers)?;
        let stirs = some_stirs(rows.as_slice());
        Ok(BlockRows {
            rows,
            concerned,
            stirs,
        })
    }

    /// Whether each event leaves the object with a number calm; that isn't said of all that are.
    pub fn leaves_calm(&self, object: u32) -> bool
        ensures { IsTrue result → all_calm object self.now.rows.items ≡ true }
    {
        !self.stirs && !is_among(&self.concerned, object)
    }
}
