//! Out of what the rows of functions are made.

ghost use Rattle.std.specs.Prelude.{IfOk, map};
ghost use Rattle.numbered_program.specs.Numbered.{AreNumbered, AreNumbersOf};

use crate::event_tables::ObjectIndex;
use crate::numbered_tuples::{Numbering, ObjectStates};
use function_tables::{FunctionTable, Tables};
use indexmap::IndexSet;
use objects::Object;
use std::alloc::{AllocError, Global};

/// The numbers of a function: those of the objects that are followed in it, and of them those that have a variable.
#[derive(Drop)]
pub(crate) struct Numbers<'t> {
    pub(crate) numbering: Numbering<'t>,
    pub(crate) index: ObjectIndex,
}

/// What the rows of a function are made of.
#[derive(Drop)]
pub(crate) struct FunctionSource<'s, 't, 'u, 'a> {
    pub(crate) tables: &'s Tables<'t, 'u, 'a>,
    /// The numbers of all functions.
    pub(crate) numbers: &'s [Numbers<'t>],
    /// The number of this one.
    pub(crate) function: u32,
    /// Its table.
    pub(crate) table: &'t FunctionTable<'u, 'a>,
    /// Its own numbers.
    pub(crate) own: &'s Numbers<'t>,
}

// The numbers of a function in which these objects are followed.
fn numbers_of<'t>(
    alloc: Global,
    objects: &'t IndexSet<Object>,
    states: &'t ObjectStates,
) -> Result<Numbers<'t>, AllocError>
    ensures { IfOk result (AreNumbersOf states.now.states.keys objects.now.keys) }
{
    let _count = objects.len();
    let Some(numbering) = Numbering::new(objects, states) else {
        return Err(AllocError);
    };
    let index = ObjectIndex::new(alloc, &numbering)?;
    Ok(Numbers { numbering, index })
}

/// The numbers of all functions, where these objects are followed in each.
pub(crate) fn all_numbers<'t>(
    alloc: Global,
    objects: &'t [IndexSet<Object>],
    states: &'t ObjectStates,
) -> Result<Vec<Numbers<'t>>, AllocError>
    ensures { IfOk result (λ list. AreNumbered states.now.states.keys (map (λ os. os.keys) objects.now) list.items) }
{
    let mut list = Vec::with_capacity(alloc, objects.len())?;
    for set in objects {
        let numbers = numbers_of(alloc, set, states)?;
        list.push(numbers)?;
    }
    Ok(list)
}
