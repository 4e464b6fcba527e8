//! The rows of functions.

ghost use Rattle.std.specs.Prelude.{◌≡◌, ◌↔◌, ℕ, List, [], Contains, Some, IfOk, map, slice_get};
ghost use Rattle.function_tables.specs.EngineTables.Known.{AreKnown, objects_in};
ghost use Rattle.numbered_program.specs.NumberedEvents.Listed.{own_of};
ghost use Rattle.numbered_program.specs.Made.{AreFunctionsOf, AreRowsAt};
ghost use Rattle.numbered_program.specs.Numbered.{AreNumbered, AreRootsOf, IsSourceOf};
ghost use Rattle.path_model.specs.CheckerModel.Choices.{State};
ghost use Rattle.path_model.specs.CheckerModel.Happenings.{Function};
ghost use Rattle.hole_matching.specs.Callouts.{is_local};

use crate::blocks::all_blocks;
use crate::numbers::{FunctionSource, Numbers};
use call_graph::FnId;
use function_tables::{FunctionTable, Tables, item};
use indexmap::IndexSet;
use numbered_engine::FunctionRows;
use objects::Object;
use std::alloc::{AllocError, Global};
use type_values::Var;

/// The numbers of these roots.
pub(crate) fn root_numbers(alloc: Global, roots: &[FnId]) -> Result<IndexSet<u32>, AllocError>
    ensures { IfOk result (λ set. (n : ℕ) → Contains set.keys n ↔ Contains (map (λ f. f.number) roots.now) n) }
{
    let mut set = IndexSet::new(alloc);
    for root in roots {
        set.insert(root.number)?;
    }
    Ok(set)
}

// Whether an object is one of a variable with automatic storage, or reached from one (ISO 9899:1990, 6.1.2.4).
fn is_own(object: &Object) -> bool
    ensures { result ≡ is_local object.now.base }
{
    match object.base() {
        Var::Local { .. } => true,
        _ => false,
    }
}

// Whether each of these objects is the function's own, in turn.
fn own_flags(alloc: Global, objects: &[Object]) -> Result<Vec<bool>, AllocError>
    ensures { IfOk result (λ flags. flags.items ≡ own_of objects.now) }
{
    let mut flags = Vec::with_capacity(alloc, objects.len())?;
    for object in objects {
        flags.push(is_own(object))?;
    }
    Ok(flags)
}

// The rows of a function out of what they are made of.
fn made_rows(
    alloc: Global,
    source: &FunctionSource,
    roots: &IndexSet<u32>,
) -> Result<FunctionRows, AllocError>
    ensures { IfOk result (λ r. (states : List State) (f : Function) → IsSourceOf states source.now f → AreRootsOf source.now.tables.now roots.now.keys → AreRowsAt source.now.tables.now states source.now.function r) }
{
    let blocks = all_blocks(alloc, source)?;
    let numbering = source.own.numbering;
    let own = own_flags(alloc, numbering.objects.as_slice())?;
    let is_root = roots.contains(&source.function);
    Ok(FunctionRows {
        blocks,
        own,
        is_root,
    })
}

// The rows of a function that isn't there.
fn nothing(alloc: Global) -> FunctionRows
    ensures { result.blocks.items ≡ [] }
{
    FunctionRows {
        blocks: Vec::new(alloc),
        own: Vec::new(alloc),
        is_root: false,
    }
}

// The rows of the function with a number, which has this table.
fn rows_with<'t, 'u, 'a>(
    alloc: Global,
    tables: &Tables<'t, 'u, 'a>,
    numbers: &[Numbers<'t>],
    roots: &IndexSet<u32>,
    function: u32,
    table: &'t FunctionTable<'u, 'a>,
) -> Result<FunctionRows, AllocError>
    ensures { IfOk result (λ r. (states : List State) → AreKnown tables.now → AreNumbered states (objects_in tables.now) numbers.now → AreRootsOf tables.now roots.now.keys → slice_get tables.now.functions.now function ≡ Some table.now → AreRowsAt tables.now states function r) }
{
    match item(numbers, function) {
        Some(own) => {
            let source = FunctionSource {
                tables,
                numbers,
                function,
                table,
                own,
            };
            made_rows(alloc, &source, roots)
        }
        None => Ok(nothing(alloc)),
    }
}

// The rows of the function with a number; of what isn't there nothing is said.
fn rows_at<'t>(
    alloc: Global,
    tables: &Tables<'t, '_, '_>,
    numbers: &[Numbers<'t>],
    roots: &IndexSet<u32>,
    function: u32,
) -> Result<FunctionRows, AllocError>
    ensures { IfOk result (λ r. (states : List State) → AreKnown tables.now → AreNumbered states (objects_in tables.now) numbers.now → AreRootsOf tables.now roots.now.keys → AreRowsAt tables.now states function r) }
{
    match item(tables.functions, function) {
        Some(table) => rows_with(alloc, tables, numbers, roots, function, table),
        None => Ok(nothing(alloc)),
    }
}

/// The rows of all functions, by their numbers.
pub(crate) fn all_functions<'t>(
    alloc: Global,
    tables: &Tables<'t, '_, '_>,
    numbers: &[Numbers<'t>],
    roots: &IndexSet<u32>,
) -> Result<Vec<FunctionRows>, AllocError>
    ensures { IfOk result (λ rows. (states : List State) → AreKnown tables.now → AreNumbered states (objects_in tables.now) numbers.now → AreRootsOf tables.now roots.now.keys → AreFunctionsOf tables.now states rows.items) }
{
    let mut functions = Vec::with_capacity(alloc, tables.program.count() as usize)?;
    for function in 0..tables.program.count() {
        let rows = rows_at(alloc, tables, numbers, roots, function)?;
        functions.push(rows)?;
    }
    Ok(functions)
}
