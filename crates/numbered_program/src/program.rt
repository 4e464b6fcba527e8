//! The rows of a program.

ghost use Rattle.std.specs.Prelude.{◌≡◌, ℕ, List, Some, IfOk, slice_get};
ghost use Rattle.c_objects.specs.Objects.{Object};
ghost use Rattle.function_tables.specs.EngineTables.Known.{AreKnown, checker_in, graphs_in, objects_in, texts_in};
ghost use Rattle.least_set.specs.Logs.{IsOnce};
ghost use Rattle.numbered_program.specs.Rows.{AreRowsOf};

use crate::begun::all_begun;
use crate::functions::{all_functions, root_numbers};
use crate::numbered_tuples::ObjectStates;
use crate::numbers::all_numbers;
use function_tables::Tables;
use numbered_engine::ProgramRows;
use std::alloc::{AllocError, Global};

/// The rows of a program under a checker, where these states have numbers: what each function does to the objects that are followed in it, and the
/// edges with which paths begin. The only fault is want of memory, or of numbers: where 2^32 objects or more are followed in one function.
pub fn program_rows(
    alloc: Global,
    tables: &Tables,
    states: &ObjectStates,
) -> Result<ProgramRows, AllocError>
    ensures rows { IfOk result (λ p. AreKnown tables.now → ∥ AreRowsOf (checker_in tables.now) (texts_in tables.now) (graphs_in tables.now) (objects_in tables.now) states.now.states.keys p ∥₁) }
    ensures once { IfOk result (λ _. (n : ℕ) (os : List Object) → slice_get (objects_in tables.now) n ≡ Some os → IsOnce os) }
{
    let made = all_numbers(alloc, tables.objects, states)?;
    let numbers = made.as_slice();
    let roots = root_numbers(alloc, tables.roots)?;
    let functions = all_functions(alloc, tables, numbers, &roots)?;
    let begun = all_begun(alloc, numbers, tables.roots)?;
    Ok(ProgramRows { functions, begun })
}
