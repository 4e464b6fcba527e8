//! The reports of path edges.

ghost use Rattle.std.specs.Prelude.{◌≡◌, List, Some, slice_get, IfOk};
ghost use Rattle.function_tables.specs.EngineTables.Known.{AreKnown, IsFrame};
ghost use Rattle.least_set.specs.Logs.{IsExactly, SomeGives};
ghost use Rattle.numbered_engine.specs.declared.edges.NumberedEdge.{NumberedEdge as Edge};
ghost use Rattle.path_model.specs.CheckerModel.Choices.{State};
ghost use Rattle.suffix_summary.specs.EdgeReports.Shown.{SaysAtEdge, ShowsIn};

use crate::edge_reports::said_reports::said_by_all;
use function_tables::{Frame, Tables, item};
use numbered_engine::{EdgeLog, NumberedEdge, NumberedEngine, firings_at};
use numbered_program::swapped;
use ordered_reports::unit_of;
use report_model::Report;
use row_flows::Firing;
use state_tuples::Checker;
use std::alloc::{AllocError, Global};

// What firings say at the block of an edge, in the function in which it is.
fn said_in(
    alloc: Global,
    tables: &Tables,
    frame: &Frame,
    edge: &NumberedEdge,
    firings: &[Firing],
) -> Result<Vec<Report>, AllocError>
    ensures { IfOk result (λ list. (states : List State) → AreKnown tables.now → IsFrame tables.now edge.now.context.function frame.now → IsExactly list.items (SomeGives (SaysAtEdge tables.now states edge.now) firings.now)) }
{
    let Some(unit) = unit_of(tables.program, edge.context.function) else {
        return Ok(Vec::new(alloc));
    };
    let number = swapped(frame.table.graph.entry(), edge.block);
    let Some(block) = item(frame.table.blocks.as_slice(), number) else {
        return Ok(Vec::new(alloc));
    };
    let rules = block.rules.as_slice();
    let checker = Checker {
        machine: tables.machine,
        number: tables.number,
        names: tables.names,
    };
    said_by_all(alloc, &checker, unit, frame.objects, rules, firings)
}

// What firings say at the block of an edge. In a function that isn't there they say nothing, and at most edges there are none.
fn said_at_edge(
    alloc: Global,
    tables: &Tables,
    edge: &NumberedEdge,
    firings: &[Firing],
) -> Result<Vec<Report>, AllocError>
    ensures { IfOk result (λ list. (states : List State) → AreKnown tables.now → IsExactly list.items (SomeGives (SaysAtEdge tables.now states edge.now) firings.now)) }
{
    if firings.is_empty() {
        return Ok(Vec::new(alloc));
    }
    match tables.frame(edge.context.function) {
        Some(frame) => said_in(alloc, tables, &frame, edge, firings),
        None => Ok(Vec::new(alloc)),
    }
}

// The reports that an edge shows: of the alternatives with an action that are taken at its block.
fn shown<L>(
    alloc: Global,
    tables: &Tables,
    engine: &NumberedEngine<L>,
    edge: &NumberedEdge,
) -> Result<Vec<Report>, AllocError>
    ensures { IfOk result (λ list. (states : List State) → AreKnown tables.now → IsExactly list.items (ShowsIn tables.now states engine.now.program.now edge.now)) }
{
    let firings = firings_at(alloc, engine, edge)?;
    said_at_edge(alloc, tables, edge, firings.as_slice())
}

// The reports that the edge at an index shows.
fn shown_at<L>(
    alloc: Global,
    tables: &Tables,
    engine: &NumberedEngine<L>,
    log: &EdgeLog,
    index: usize,
) -> Result<Vec<Report>, AllocError>
    ensures { IfOk result (λ list. (states : List State) (e : Edge) → AreKnown tables.now → slice_get log.now.keys index ≡ Some e → IsExactly list.items (ShowsIn tables.now states engine.now.program.now e)) }
{
    match log.get(index) {
        Some(edge) => shown(alloc, tables, engine, &edge),
        None => Ok(Vec::new(alloc)),
    }
}

/// The reports that these edges show over the rows of the engine, one edge after the other. One that several edges show is there as often.
pub(crate) fn all_shown<L>(
    alloc: Global,
    tables: &Tables,
    engine: &NumberedEngine<L>,
    log: &EdgeLog,
) -> Result<Vec<Report>, AllocError>
    ensures { IfOk result (λ list. (states : List State) → AreKnown tables.now → IsExactly list.items (SomeGives (ShowsIn tables.now states engine.now.program.now) log.now.keys)) }
{
    let mut reports = Vec::new(alloc);
    for index in 0..log.len() {
        let mut more = shown_at(alloc, tables, engine, log, index)?;
        reports.append(&mut more)?;
    }
    Ok(reports)
}
