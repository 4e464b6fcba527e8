//! What the engine follows. An engine that follows no object meets the global states of all paths, since these depend on none; and what
//! rules bind in these states alone can be known, with what takes its state from it.

ghost use Rattle.std.specs.Prelude.{map, IfOk};
ghost use Rattle.function_tables.specs.EngineTables.Known.{checker_in, texts_in, graphs_in, objects_in};
ghost use Rattle.known_objects.specs.FollowedSets.{AreFollowable, HaveNone};

use crate::met_states::bound_where_met;
use crate::tabulation_engine::{Engine, least_edges};
use indexmap::IndexSet;
use known_objects::{known_lists_are_enough, known_sets};
use objects::Object;
use path_edges::empty_edges_meet;
use std::alloc::{AllocError, Global};

/// The objects that are to be followed in each function of a program, by its number, where this engine follows none. The only fault is want
/// of memory.
pub(crate) fn followed_sets(
    alloc: Global,
    engine: &Engine,
) -> Result<Vec<IndexSet<Object>>, AllocError>
    requires { HaveNone (objects_in engine.now.tables) }
    ensures { IfOk result (λ sets. ∥ AreFollowable (checker_in engine.now.tables) (texts_in engine.now.tables) (graphs_in engine.now.tables) (map (λ s. s.keys) sets.items) ∥₁) }
{
    empty_edges_meet();
    known_lists_are_enough();
    let tables = &engine.tables;
    let edges = least_edges(alloc, engine)?;
    let bound = bound_where_met(alloc, tables.functions, edges.as_slice())?;
    known_sets(
        alloc,
        tables.program,
        tables.functions,
        bound.as_slice(),
        tables.depth,
    )
}
