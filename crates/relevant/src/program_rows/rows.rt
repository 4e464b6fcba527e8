//! Rows by the numbers of their functions.

ghost use Rattle.std.specs.Prelude.{◌≡◌, ◌<◌, length, map, IfOk};
ghost use Rattle.path_model.specs.CheckerModel.Reports.{Checker};
ghost use Rattle.typed_unit.specs.Texts.{texts_of};
ghost use Rattle.flow_graph.specs.Seen.{graph_in};
ghost use Rattle.function_tables.specs.Tables.{AreTables};
ghost use Rattle.relevant.specs.ProgramRows.Filing.{IsFiled};
ghost use Rattle.relevant.specs.ProgramRows.Made.{IsMade, AreMade};
ghost use Rattle.call_graph.specs.OfPrograms.Definitions.{definitions, trees_in};
ghost use Rattle.relevant.specs.RelevantRows.Rows.{AreRows};

use crate::program_rows::calls::followed_calls;
use crate::program_rows::events::events_at;
use crate::program_rows::filing::{filed, positions_at};
use crate::program_rows::functions::unit_of;
use crate::program_rows::listing::calls_at;
use crate::relevant_objects::{FollowedCall, FunctionRow};
use call_graph::Program;
use function_tables::FunctionTable;
use std::alloc::{AllocError, Global};

// The row of the function with a number, out of all followed calls and of the positions of each function's.
fn row_of<'u, 'a>(
    alloc: Global,
    program: &Program<'u, 'a>,
    tables: &[FunctionTable<'_, 'a>],
    calls: &[FollowedCall<'u, 'a>],
    positions: &[Vec<usize>],
    number: u32,
) -> Result<FunctionRow<'u, 'a>, AllocError>
    requires there { number < length (definitions (trees_in program.now.units.items)) }
    requires filed { IsFiled calls.now (length (definitions (trees_in program.now.units.items))) positions.now }
    ensures { IfOk result (λ row. IsMade program.now.units.items tables.now calls.now number row) }
{
    let unit = unit_of(program, number);
    let events = events_at(alloc, tables, number)?;
    let calls = calls_at(alloc, calls, positions_at(positions, number))?;
    Ok(FunctionRow {
        unit,
        events,
        calls,
    })
}

// The rows of all functions.
fn rows_from<'u, 'a>(
    alloc: Global,
    program: &Program<'u, 'a>,
    tables: &[FunctionTable<'_, 'a>],
    calls: &[FollowedCall<'u, 'a>],
    positions: &[Vec<usize>],
) -> Result<Vec<FunctionRow<'u, 'a>>, AllocError>
    requires { IsFiled calls.now (length (definitions (trees_in program.now.units.items))) positions.now }
    ensures count { IfOk result (λ rows. length rows.items ≡ length (definitions (trees_in program.now.units.items))) }
    ensures made { IfOk result (λ rows. AreMade program.now.units.items tables.now calls.now rows.items) }
{
    let mut rows = Vec::new(alloc);
    for number in 0..program.count() {
        let row = row_of(alloc, program, tables, calls, positions, number)?;
        rows.push(row)?;
    }
    Ok(rows)
}

/// The row of each function of a program, by its number: its unit, its events in the blocks that control reaches, and the followed calls at
/// the ends of such blocks, from it and into it; one from a function into itself stands there twice. The work is linear in the number of
/// functions, of blocks that control reaches, and of their events and calls. The only fault is want of memory.
pub fn rows_of<'u, 'a>(
    alloc: Global,
    program: &Program<'u, 'a>,
    tables: &[FunctionTable<'_, 'a>],
) -> Result<Vec<FunctionRow<'u, 'a>>, AllocError>
    ensures { IfOk result (λ rows. (c : Checker) → AreTables c.machine c.depth (texts_of program.now.units.items) tables.now → AreRows c (texts_of program.now.units.items) (map (λ t. graph_in t.graph.now) tables.now) rows.items) }
{
    let calls = followed_calls(alloc, program, tables)?;
    let positions = filed(alloc, calls.as_slice(), program.count())?;
    rows_from(
        alloc,
        program,
        tables,
        calls.as_slice(),
        positions.as_slice(),
    )
}
