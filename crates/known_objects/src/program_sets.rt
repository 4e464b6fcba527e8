//! The objects of a program's functions that can be known under a checker, as sets.

ghost use Rattle.std.specs.Prelude.{◌≡◌, ◌≤◌, ℕ, List, Contains, length, map, IfOk};
ghost use Rattle.c_objects.specs.Objects.{Object as Seen, IsObject};
ghost use Rattle.flow_graph.specs.CPaths.Building.{Graph};
ghost use Rattle.function_tables.specs.Tables.{AreTables};
ghost use Rattle.known_objects.specs.Followed.{AreKnownLists};
ghost use Rattle.path_model.specs.CheckerGraphs.Graphs.{AreGraphs, AreApartPlaces};
ghost use Rattle.path_model.specs.CheckerModel.Reports.{Checker};
ghost use Rattle.path_model.specs.CheckerPrograms.Texts.{functions_in};
ghost use Rattle.relevant.specs.RelevantRows.Rows.{AreRows};
ghost use Rattle.typed_unit.specs.Texts.{Text, texts_of};

use crate::listing::{calls_of, moves_of};
use crate::search::known_over;
use crate::sets::sets_of;
use call_graph::Program;
use function_tables::FunctionTable;
use indexmap::IndexSet;
use objects::Object;
use relevant::{FunctionRow, rows_of};
use std::alloc::{AllocError, Global};

// The objects that can be known, by function, of so many functions with these rows, where rules bind these objects.
fn sets_over(
    alloc: Global,
    rows: &[FunctionRow],
    bound: &[(u32, Object)],
    count: u32,
    depth: u8,
) -> Result<Vec<IndexSet<Object>>, AllocError>
    requires { depth ≤ 8 }
    ensures { IfOk result (λ sets. (c : Checker) (ts : List Text) (gs : List Graph) → c.depth ≡ depth → AreGraphs ts gs → AreApartPlaces (functions_in ts) → AreRows c ts gs rows.now → length (functions_in ts) ≡ count → ((n : ℕ) (o : Seen) → Contains bound.now (n, o) → IsObject c.depth o) → AreKnownLists c ts bound.now (map (λ s. s.keys) sets.items)) }
{
    let moves = moves_of(alloc, rows, count, depth)?;
    let calls = calls_of(alloc, rows, count)?;
    let found = known_over(alloc, bound, moves.as_slice(), calls.as_slice(), depth)?;
    sets_of(alloc, count, found.as_slice())
}

/// The objects of each function of a program whose state can be known, by the function's number, where rules bind these objects of functions with
/// these numbers: they, and what takes its state from them, where what comes out of a callee comes back to those callers alone that handed in
/// what it comes from. All others are unknown on every path on which rules bind nothing else, and no rule takes one with a report. Objects have at
/// most `depth` steps. The only fault is want of memory.
pub fn known_sets<'u, 'a>(
    alloc: Global,
    program: &Program<'u, 'a>,
    tables: &[FunctionTable<'u, 'a>],
    bound: &[(u32, Object)],
    depth: u8,
) -> Result<Vec<IndexSet<Object>>, AllocError>
    requires { depth ≤ 8 }
    ensures { IfOk result (λ sets. (c : Checker) → c.depth ≡ depth → AreTables c.machine c.depth (texts_of program.now.units.items) tables.now → ((n : ℕ) (o : Seen) → Contains bound.now (n, o) → IsObject c.depth o) → ∥ AreKnownLists c (texts_of program.now.units.items) bound.now (map (λ s. s.keys) sets.items) ∥₁) }
{
    let rows = rows_of(alloc, program, tables)?;
    sets_over(alloc, rows.as_slice(), bound, program.count(), depth)
}
