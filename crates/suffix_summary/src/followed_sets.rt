//! What the engine follows. An engine that follows no object meets the global states of all paths, since these depend on none; and what
//! rules bind in these states alone can be known, with what takes its state from it. Where no rule leads to a global state, `start` is all that
//! paths meet, and no engine has to find that.

ghost use Rattle.std.specs.Prelude.{◌≡◌, true, map, IfOk};
ghost use Rattle.function_tables.specs.EngineTables.Known.{checker_in, texts_in, graphs_in, objects_in};
ghost use Rattle.known_objects.specs.FollowedSets.{AreFollowable, HaveNone};
ghost use Rattle.suffix_summary.specs.InStart.{AreEnoughBound, stays_in_start};

use crate::known_tables::KnownTables;
use crate::met_states::{bound_in_start, bound_where_met, stays_in_start};
use crate::standing_rows::standing_rows;
use crate::tabulated_reports::BlockEntries;
use indexmap::IndexSet;
use known_objects::{known_lists_are_enough, known_sets};
use numbered_engine::{NumberedEngine, tabulate};
use objects::Object;
use std::alloc::{AllocError, Global};

// What rules bind in the global states that an engine without objects meets, where these tables follow none.
fn bound_by_edges(alloc: Global, known: &KnownTables) -> Result<Vec<(u32, Object)>, AllocError>
    requires { HaveNone (objects_in known.now.tables) }
    ensures { IfOk result (λ bound. ∥ AreEnoughBound (checker_in known.now.tables) (texts_in known.now.tables) (graphs_in known.now.tables) bound.items ∥₁) }
{
    known_lists_are_enough();
    let tables = &known.tables;
    let rows = standing_rows(alloc, tables)?;
    let mut engine: NumberedEngine<BlockEntries> = NumberedEngine::new(alloc, &rows);
    let log = tabulate(alloc, &mut engine)?;
    bound_where_met(alloc, tables.functions, &rows, &log)
}

// What rules bind in `start`, where no rule leads to a global state.
fn bound_at_first(alloc: Global, known: &KnownTables) -> Result<Vec<(u32, Object)>, AllocError>
    requires { stays_in_start (checker_in known.now.tables).machine ≡ true }
    ensures { IfOk result (λ bound. ∥ AreEnoughBound (checker_in known.now.tables) (texts_in known.now.tables) (graphs_in known.now.tables) bound.items ∥₁) }
{
    known_lists_are_enough();
    let tables = &known.tables;
    bound_in_start(alloc, tables.functions, tables.program.count())
}

// What rules bind in the global states that paths meet, or in more.
fn bound_objects(alloc: Global, known: &KnownTables) -> Result<Vec<(u32, Object)>, AllocError>
    requires { HaveNone (objects_in known.now.tables) }
    ensures { IfOk result (λ bound. ∥ AreEnoughBound (checker_in known.now.tables) (texts_in known.now.tables) (graphs_in known.now.tables) bound.items ∥₁) }
{
    if stays_in_start(known.tables.machine) {
        return bound_at_first(alloc, known);
    }
    bound_by_edges(alloc, known)
}

/// The objects that are to be followed in each function of a program, by its number, where these tables follow none. The only fault is want
/// of memory.
pub(crate) fn followed_sets(
    alloc: Global,
    known: &KnownTables,
) -> Result<Vec<IndexSet<Object>>, AllocError>
    requires { HaveNone (objects_in known.now.tables) }
    ensures { IfOk result (λ sets. ∥ AreFollowable (checker_in known.now.tables) (texts_in known.now.tables) (graphs_in known.now.tables) (map (λ s. s.keys) sets.items) ∥₁) }
{
    let bound = bound_objects(alloc, known)?;
    let tables = &known.tables;
    known_sets(
        alloc,
        tables.program,
        tables.functions,
        bound.as_slice(),
        tables.depth,
    )
}
