//! What takes a rule in the blocks of path edges while it is unknown.

ghost use Rattle.std.specs.Prelude.{List, map, slice_get, IfOk};
ghost use Rattle.flow_graph.specs.CPaths.BlockGraphs.{events_at};
ghost use Rattle.flow_graph.specs.CPaths.Graphs.{Block};
ghost use Rattle.flow_graph.specs.Seen.{graph_in};
ghost use Rattle.function_tables.specs.Tables.{AreBlockTables, AreTables};
ghost use Rattle.least_set.specs.Logs.{Adds, IsExactly};
ghost use Rattle.path_model.specs.CheckerGraphs.Graphs.{AreApartPlaces};
ghost use Rattle.path_model.specs.CheckerModel.Reports.{Checker};
ghost use Rattle.path_model.specs.CheckerPrograms.Texts.{functions_in, function_of, happening};
ghost use Rattle.saturation.specs.MetStates.{GivesAmong, GivesBound, IsBoundWhereMet};
ghost use Rattle.type_rules.specs.Functions.{Defined};
ghost use Rattle.typed_unit.specs.Texts.{Text};

use crate::met_states::events::add_at_events;
use function_tables::{FunctionTable, item};
use objects::Object;
use path_edges::Edge;
use std::alloc::{AllocError, Global};

// Puts last what takes a rule in the edge's block, in the function with this table.
fn add_in_block(
    alloc: Global,
    found: &mut Vec<(u32, Object)>,
    table: &FunctionTable,
    edge: &Edge,
) -> Result<(), AllocError>
    ensures { IfOk result (λ _. (c : Checker) (ts : List Text) (d : Defined) (bs : List Block) → AreBlockTables c.machine c.depth ts d bs table.now.blocks.items → Adds (GivesAmong c (function_of d) (map (happening ts (function_of d)) (events_at (slice_get bs edge.now.block))) edge.now.tuple.global edge.now) found.old.items found.new.items) }
{
    match item(table.blocks.as_slice(), edge.block) {
        Some(block) => add_at_events(alloc, found, block.rules.as_slice(), edge),
        None => Ok(()),
    }
}

// Puts last what takes a rule in the edge's block. None does in a function that isn't there.
fn add_at_edge(
    alloc: Global,
    found: &mut Vec<(u32, Object)>,
    tables: &[FunctionTable],
    edge: &Edge,
) -> Result<(), AllocError>
    ensures { IfOk result (λ _. (c : Checker) (ts : List Text) → AreApartPlaces (functions_in ts) → AreTables c.machine c.depth ts tables.now → Adds (GivesBound c ts (map (λ t. graph_in t.graph.now) tables.now) edge.now) found.old.items found.new.items) }
{
    match item(tables, edge.context.function) {
        Some(table) => add_in_block(alloc, found, table, edge),
        None => Ok(()),
    }
}

/// The objects that rules bind where their global states are met by these edges, each with the number of its function: those that take a
/// rule while they are unknown, at an event and in a global state with which some edge comes to it. One may stand there more than once.
/// The only fault is want of memory.
pub(crate) fn bound_where_met(
    alloc: Global,
    tables: &[FunctionTable],
    edges: &[Edge],
) -> Result<Vec<(u32, Object)>, AllocError>
    ensures { IfOk result (λ list. (c : Checker) (ts : List Text) → AreApartPlaces (functions_in ts) → AreTables c.machine c.depth ts tables.now → IsExactly list.items (IsBoundWhereMet c ts (map (λ t. graph_in t.graph.now) tables.now) edges.now)) }
{
    let mut found = Vec::new(alloc);
    for edge in edges {
        add_at_edge(alloc, &mut found, tables, edge)?;
    }
    Ok(found)
}
