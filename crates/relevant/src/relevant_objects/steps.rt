//! Links as rules.

ghost use Rattle.std.specs.Prelude.{◌≡◌, ◌≤◌, IfOk, Contains, slice_get};
ghost use Rattle.std.specs.Option.{option_map};
ghost use Rattle.least_set.specs.Logs.{IsExactly};
ghost use Rattle.relevant.specs.RelevantObjects.Links.{LinksIn, LinksFrom};

use crate::relevant_objects::calls::add_over_calls;
use crate::relevant_objects::events::add_at_events;
use crate::relevant_objects::rows::FunctionRow;
use least_set::Steps;
use objects::{Object, copy};
use std::alloc::{AllocError, Global};

// What an object of a function is linked to.
fn linked_in(
    alloc: Global,
    row: &FunctionRow,
    member: &(u32, Object),
    depth: u8,
) -> Result<Vec<(u32, Object)>, AllocError>
    requires { depth ≤ 8 }
    ensures { IfOk result (λ list. IsExactly list.items (LinksIn depth row.now member.now)) }
{
    let mut found = Vec::new(alloc);
    add_at_events(alloc, &mut found, row, member, depth)?;
    add_over_calls(alloc, &mut found, row, member, depth)?;
    Ok(found)
}

/// The function with a number.
pub fn row_at<'r, 's, 'a>(
    rows: &'r [FunctionRow<'s, 'a>],
    number: u32,
) -> Option<&'r FunctionRow<'s, 'a>>
    ensures { option_map (λ row. row.now) result ≡ slice_get rows.now number }
{
    rows.get(number as usize)
}

// The same by the number of the function; nothing where there is none with this number.
fn linked_from(
    alloc: Global,
    rows: &[FunctionRow],
    member: &(u32, Object),
    depth: u8,
) -> Result<Vec<(u32, Object)>, AllocError>
    requires { depth ≤ 8 }
    ensures { IfOk result (λ list. IsExactly list.items (LinksFrom depth rows.now member.now)) }
{
    match row_at(rows, member.0) {
        Some(row) => linked_in(alloc, row, member, depth),
        None => Ok(Vec::new(alloc)),
    }
}

/// Equal objects of functions.
pub fn copies(alloc: Global, members: &[(u32, Object)]) -> Result<Vec<(u32, Object)>, AllocError>
    ensures { IfOk result (λ list. list.items ≡ members.now) }
{
    let mut list = Vec::new(alloc);
    for member in members {
        list.push((member.0, copy(&member.1)))?;
    }
    Ok(list)
}

/// Functions as rules: what is there from the beginning, and with an object each to which it is linked.
#[derive(Drop)]
pub(crate) struct Links<'r, 's, 'a> {
    pub(crate) rows: &'r [FunctionRow<'s, 'a>],
    pub(crate) bound: &'r [(u32, Object)],
    pub(crate) depth: u8,
    ghost low: { depth ≤ 8 },
}

impl Steps for Links<'_, '_, '_> {
    type Member = (u32, Object);

    ghost base = { λ s. Contains s.bound.now };

    ghost goes = { λ s. LinksFrom s.depth s.rows.now };

    fn begin(&self, alloc: Global) -> Result<Vec<(u32, Object)>, AllocError> {
        copies(alloc, self.bound)
    }

    fn next(
        &self,
        alloc: Global,
        member: &(u32, Object),
    ) -> Result<Vec<(u32, Object)>, AllocError> {
        linked_from(alloc, self.rows, member, self.depth)
    }
}
