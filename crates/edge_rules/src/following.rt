//! The edges to which an edge leads.

ghost use Rattle.std.specs.Prelude.{◌≡◌, Some, IfOk, slice_get};
ghost use Rattle.std.specs.Option.{option_map};
ghost use Rattle.flow_graph.specs.CPaths.Graphs.{Calls};
ghost use Rattle.c_tree.specs.Views.{node_of};
ghost use Rattle.path_edges.specs.EdgeSteps.Steps.{StandsBehind};
ghost use Rattle.function_tables.specs.EngineTables.Known.{AreKnown, IsFrame, checker_in, texts_in, graphs_in, objects_in};
ghost use Rattle.flow_graph.specs.Seen.{graph_in};
ghost use Rattle.flow_graph.specs.Values.{ending_of};
ghost use Rattle.least_set.specs.Logs.{IsExactly};
ghost use Rattle.path_edges.specs.Relations.{LeadsTo};

use crate::callees::callee_of;
use crate::entering::entered_edges;
use c_tree::Tree;
use flow_graph::End;
use function_tables::{Frame, Tables, end_at};
use path_edges::{Edge, onward};
use state_tuples::Tuple;
use std::alloc::{AllocError, Global};

// Those at a call: the first edges of the callee, where the call is followed.
fn at_call<'a>(
    alloc: Global,
    tables: &Tables<'_, '_, 'a>,
    frame: &Frame,
    edge: &Edge,
    tuples: &[Tuple],
    call: &Tree<'a>,
    next: u32,
) -> Result<Vec<Edge>, AllocError>
    ensures { IfOk result (λ list. AreKnown tables.now → IsFrame tables.now edge.now.context.function frame.now → option_map (λ b. b.ending) (slice_get (graph_in frame.now.table.now.graph.now).blocks edge.now.block) ≡ Some (Calls (node_of call.now) next) → IsExactly tuples.now (StandsBehind (checker_in tables.now) (texts_in tables.now) (graphs_in tables.now) (objects_in tables.now) edge.now) → IsExactly list.items (LeadsTo (checker_in tables.now) (texts_in tables.now) (graphs_in tables.now) (objects_in tables.now) edge.now)) }
{
    let Some(callee) = callee_of(tables, frame.table, edge.block) else {
        return onward(alloc, edge, &[next], tuples);
    };
    let objects = frame.objects;
    match tables.site(edge.context.function, call) {
        Some(site) => entered_edges(alloc, &site, tables.depth, objects, &callee, tuples),
        None => Ok(Vec::new(alloc)),
    }
}

// Those behind a block that ends so.
fn behind_end<'a>(
    alloc: Global,
    tables: &Tables<'_, '_, 'a>,
    frame: &Frame<'_, '_, 'a>,
    edge: &Edge,
    tuples: &[Tuple],
    end: &End<'a>,
) -> Result<Vec<Edge>, AllocError>
    ensures { IfOk result (λ list. AreKnown tables.now → IsFrame tables.now edge.now.context.function frame.now → option_map (λ b. b.ending) (slice_get (graph_in frame.now.table.now.graph.now).blocks edge.now.block) ≡ Some (ending_of end.now) → IsExactly tuples.now (StandsBehind (checker_in tables.now) (texts_in tables.now) (graphs_in tables.now) (objects_in tables.now) edge.now) → IsExactly list.items (LeadsTo (checker_in tables.now) (texts_in tables.now) (graphs_in tables.now) (objects_in tables.now) edge.now)) }
{
    match end {
        End::Goto(targets) => onward(alloc, edge, targets.as_slice(), tuples),
        End::Call { site, next } => at_call(alloc, tables, frame, edge, tuples, site, *next),
        End::Exit => Ok(Vec::new(alloc)),
    }
}

// Those of an edge in a function that is there.
fn next_in<'a>(
    alloc: Global,
    tables: &Tables<'_, '_, 'a>,
    frame: &Frame<'_, '_, 'a>,
    edge: &Edge,
    tuples: &[Tuple],
) -> Result<Vec<Edge>, AllocError>
    ensures { IfOk result (λ list. AreKnown tables.now → IsFrame tables.now edge.now.context.function frame.now → IsExactly tuples.now (StandsBehind (checker_in tables.now) (texts_in tables.now) (graphs_in tables.now) (objects_in tables.now) edge.now) → IsExactly list.items (LeadsTo (checker_in tables.now) (texts_in tables.now) (graphs_in tables.now) (objects_in tables.now) edge.now)) }
{
    match end_at(frame.table.graph, edge.block) {
        Some(end) => behind_end(alloc, tables, frame, edge, tuples, end),
        None => Ok(Vec::new(alloc)),
    }
}

/// The edges to which an edge leads, where these tuples are those at the end of its block: at the heads of next blocks, and where the block
/// ends in a call that is followed at the entry of its callee. Any edge may be asked for, also one in a function or a block that isn't
/// there; then there are none.
pub fn next_edges(
    alloc: Global,
    tables: &Tables,
    edge: &Edge,
    tuples: &[Tuple],
) -> Result<Vec<Edge>, AllocError>
    ensures { IfOk result (λ list. AreKnown tables.now → IsExactly tuples.now (StandsBehind (checker_in tables.now) (texts_in tables.now) (graphs_in tables.now) (objects_in tables.now) edge.now) → IsExactly list.items (LeadsTo (checker_in tables.now) (texts_in tables.now) (graphs_in tables.now) (objects_in tables.now) edge.now)) }
{
    match tables.frame(edge.context.function) {
        Some(frame) => next_in(alloc, tables, &frame, edge, tuples),
        None => Ok(Vec::new(alloc)),
    }
}
