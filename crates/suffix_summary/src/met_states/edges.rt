//! What takes a rule in the blocks of path edges while it is unknown.

ghost use Rattle.std.specs.Prelude.{◌≡◌, List, Some, map, slice_get, IfOk};
ghost use Rattle.flow_graph.specs.CPaths.BlockGraphs.{events_at};
ghost use Rattle.flow_graph.specs.CPaths.Graphs.{Block};
ghost use Rattle.flow_graph.specs.Seen.{graph_in};
ghost use Rattle.function_tables.specs.Tables.{AreBlockTables, AreTables};
ghost use Rattle.least_set.specs.Logs.{Adds, IsExactly};
ghost use Rattle.numbered_engine.specs.Program.{is_own_frame};
ghost use Rattle.numbered_engine.specs.declared.edges.NumberedEdge.{NumberedEdge as Edge};
ghost use Rattle.numbered_program.specs.Views.{swapped};
ghost use Rattle.path_model.specs.CheckerGraphs.Graphs.{AreApartPlaces};
ghost use Rattle.path_model.specs.CheckerModel.Reports.{Checker};
ghost use Rattle.path_model.specs.CheckerPrograms.Texts.{functions_in, function_of, happening};
ghost use Rattle.suffix_summary.specs.MetStates.{GivesAmong, GivesBound, GivesInKind, IsBoundWhereMet, is_own_in};
ghost use Rattle.type_rules.specs.Functions.{Defined};
ghost use Rattle.typed_unit.specs.Texts.{Text};

use crate::met_states::events::{Frames, add_at_events};
use function_tables::{FunctionTable, item};
use numbered_engine::{EdgeLog, FunctionRows, NumberedEdge, ProgramRows};
use numbered_program::swapped;
use objects::Object;
use row_flows::NumberedTuple;
use std::alloc::{AllocError, Global};

// Puts last what takes a rule in the edge's block, in frames of this kind of the function with this table.
fn add_in_block(
    alloc: Global,
    found: &mut Vec<(u32, Object)>,
    table: &FunctionTable,
    edge: &NumberedEdge,
    is_root: bool,
) -> Result<(), AllocError>
    ensures { IfOk result (λ _. (c : Checker) (ts : List Text) (d : Defined) (bs : List Block) → AreBlockTables c.machine c.depth ts d bs table.now.blocks.items → Adds (GivesAmong c (function_of d) is_root (map (happening ts (function_of d)) (events_at (slice_get bs (swapped (graph_in table.now.graph.now).entry edge.now.block)))) edge.now.tuple.global edge.now.context.function) found.old.items found.new.items) }
{
    let frames = Frames {
        function: edge.context.function,
        is_root,
    };
    let number = swapped(table.graph.entry(), edge.block);
    match item(table.blocks.as_slice(), number) {
        Some(block) => {
            let rules = block.rules.as_slice();
            add_at_events(alloc, found, rules, frames, edge.tuple.global)
        }
        None => Ok(()),
    }
}

// Puts last what takes a rule in the edge's block, in frames of this kind. None does in a function that isn't there.
fn add_in_kind(
    alloc: Global,
    found: &mut Vec<(u32, Object)>,
    tables: &[FunctionTable],
    edge: &NumberedEdge,
    is_root: bool,
) -> Result<(), AllocError>
    ensures { IfOk result (λ _. (c : Checker) (ts : List Text) → AreApartPlaces (functions_in ts) → AreTables c.machine c.depth ts tables.now → Adds (GivesInKind c ts (map (λ t. graph_in t.graph.now) tables.now) edge.now is_root) found.old.items found.new.items) }
{
    match item(tables, edge.context.function) {
        Some(table) => add_in_block(alloc, found, table, edge, is_root),
        None => Ok(()),
    }
}

// Whether a frame that was entered so is a root's own.
fn is_own_frame(function: &FunctionRows, entry: NumberedTuple) -> bool
    ensures { result ≡ is_own_frame function.now entry }
{
    function.is_root && entry.global == 0 && entry.state == 0
}

// Whether the edge's context is followed in a root's own frame.
fn is_own(program: &ProgramRows, edge: &NumberedEdge) -> bool
    ensures { result ≡ is_own_in program.now edge.now }
{
    match item(program.functions.as_slice(), edge.context.function) {
        Some(function) => is_own_frame(function, edge.context.entry),
        None => false,
    }
}

// Puts last what takes a rule in the edge's block, in frames of the kinds for which the edge stands.
fn add_at_edge(
    alloc: Global,
    found: &mut Vec<(u32, Object)>,
    tables: &[FunctionTable],
    program: &ProgramRows,
    edge: &NumberedEdge,
) -> Result<(), AllocError>
    ensures { IfOk result (λ _. (c : Checker) (ts : List Text) → AreApartPlaces (functions_in ts) → AreTables c.machine c.depth ts tables.now → Adds (GivesBound c ts (map (λ t. graph_in t.graph.now) tables.now) program.now edge.now) found.old.items found.new.items) }
{
    add_in_kind(alloc, found, tables, edge, false)?;
    if !is_own(program, edge) {
        return Ok(());
    }
    add_in_kind(alloc, found, tables, edge, true)
}

// Puts last what takes a rule in the block of the edge at an index, in frames of the kinds for which the edge stands.
fn add_at_index(
    alloc: Global,
    found: &mut Vec<(u32, Object)>,
    tables: &[FunctionTable],
    program: &ProgramRows,
    log: &EdgeLog,
    index: usize,
) -> Result<(), AllocError>
    ensures { IfOk result (λ _. (c : Checker) (ts : List Text) (e : Edge) → AreApartPlaces (functions_in ts) → AreTables c.machine c.depth ts tables.now → slice_get log.now.keys index ≡ Some e → Adds (GivesBound c ts (map (λ t. graph_in t.graph.now) tables.now) program.now e) found.old.items found.new.items) }
{
    match log.get(index) {
        Some(edge) => add_at_edge(alloc, found, tables, program, &edge),
        None => Ok(()),
    }
}

/// The objects that rules bind where their global states are met by these edges over these rows, each with the number of its function: those
/// that take a rule while they are unknown, at an event and in a global state with which some edge comes to it. One may stand there more than
/// once. The only fault is want of memory.
pub(crate) fn bound_where_met(
    alloc: Global,
    tables: &[FunctionTable],
    program: &ProgramRows,
    log: &EdgeLog,
) -> Result<Vec<(u32, Object)>, AllocError>
    ensures { IfOk result (λ list. (c : Checker) (ts : List Text) → AreApartPlaces (functions_in ts) → AreTables c.machine c.depth ts tables.now → IsExactly list.items (IsBoundWhereMet c ts (map (λ t. graph_in t.graph.now) tables.now) program.now log.now.keys)) }
{
    let mut found = Vec::new(alloc);
    for index in 0..log.len() {
        add_at_index(alloc, &mut found, tables, program, log, index)?;
    }
    Ok(found)
}
