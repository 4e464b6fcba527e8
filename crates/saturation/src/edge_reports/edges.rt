//! The reports of path edges.

ghost use Rattle.std.specs.Prelude.{IfOk};
ghost use Rattle.function_tables.specs.EngineTables.Known.{AreKnown, IsFrame, checker_in, texts_in, graphs_in, objects_in};
ghost use Rattle.least_set.specs.Logs.{IsExactly, SomeGives};
ghost use Rattle.path_edges.specs.Relations.{ShowsAt};

use crate::edge_reports::taken_reports::said_by_all;
use block_flows::firings;
use function_tables::{Frame, Tables, item};
use ordered_reports::unit_of;
use path_edges::Edge;
use report_model::Report;
use state_tuples::Checker;
use std::alloc::{AllocError, Global};

// The reports of an edge, in the function in which it is.
fn shown_in(
    alloc: Global,
    tables: &Tables,
    frame: &Frame,
    edge: &Edge,
) -> Result<Vec<Report>, AllocError>
    ensures { IfOk result (λ list. AreKnown tables.now → IsFrame tables.now edge.now.context.function frame.now → IsExactly list.items (ShowsAt (checker_in tables.now) (texts_in tables.now) (graphs_in tables.now) (objects_in tables.now) edge.now)) }
{
    let Some(unit) = unit_of(tables.program, edge.context.function) else {
        return Ok(Vec::new(alloc));
    };
    let Some(block) = item(frame.table.blocks.as_slice(), edge.block) else {
        return Ok(Vec::new(alloc));
    };
    let rules = block.rules.as_slice();
    let taken = firings(alloc, rules, edge.is_root, &edge.tuple, frame.objects)?;
    let checker = Checker {
        machine: tables.machine,
        number: tables.number,
        names: tables.names,
    };
    said_by_all(alloc, &checker, unit, rules, taken.as_slice())
}

/// The reports that an edge shows: of the rules with an action that are taken while its tuple crosses the events of its block, each at its
/// event. Any edge may be asked for, also one in a function that isn't there; then there are none.
pub fn shown(alloc: Global, tables: &Tables, edge: &Edge) -> Result<Vec<Report>, AllocError>
    ensures { IfOk result (λ list. AreKnown tables.now → IsExactly list.items (ShowsAt (checker_in tables.now) (texts_in tables.now) (graphs_in tables.now) (objects_in tables.now) edge.now)) }
{
    match tables.frame(edge.context.function) {
        Some(frame) => shown_in(alloc, tables, &frame, edge),
        None => Ok(Vec::new(alloc)),
    }
}

/// The reports that these edges show, one edge after the other. One that several edges show is there as often.
pub fn all_shown(alloc: Global, tables: &Tables, edges: &[Edge]) -> Result<Vec<Report>, AllocError>
    ensures { IfOk result (λ list. AreKnown tables.now → IsExactly list.items (SomeGives (ShowsAt (checker_in tables.now) (texts_in tables.now) (graphs_in tables.now) (objects_in tables.now)) edges.now)) }
{
    let mut reports = Vec::new(alloc);
    for edge in edges {
        let mut more = shown(alloc, tables, edge)?;
        reports.append(&mut more)?;
    }
    Ok(reports)
}
