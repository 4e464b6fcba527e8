//! The events of a function.

ghost use Rattle.std.specs.Prelude.{◌≡◌, ◌++◌, flat_map, map, slice_get, IfOk, OnOk};
ghost use Rattle.flow_graph.specs.CPaths.BlockGraphs.{events_at};
ghost use Rattle.flow_graph.specs.Seen.{graph_in};
ghost use Rattle.flow_graph.specs.Values.{event_of};
ghost use Rattle.least_set.specs.Logs.{IsExactly};
ghost use Rattle.relevant.specs.ProgramRows.Made.{HappensIn};
ghost use Rattle.flow_graph.specs.ReachedBlocks.Reached.{Happens};

use crate::program_rows::tables::table_at;
use flow_graph::{Event, Graph, reached};
use function_tables::FunctionTable;
use std::alloc::{AllocError, Global};

// Puts last the events of a block; none where it isn't there.
fn add_events<'a>(
    events: &mut Vec<Event<'a>>,
    graph: &Graph<'a>,
    block: u32,
) -> Result<(), AllocError>
    ensures { OnOk result (map event_of events.new.items ≡ map event_of events.old.items ++ events_at (slice_get (graph_in graph.now).blocks block)) }
{
    if block < graph.count() {
        events.extend_from_slice(graph.block(block).events.as_slice())
    } else {
        Ok(())
    }
}

// The events of these blocks, in order.
fn events_in<'a>(
    alloc: Global,
    graph: &Graph<'a>,
    blocks: &[u32],
) -> Result<Vec<Event<'a>>, AllocError>
    ensures { IfOk result (λ events. map event_of events.items ≡ flat_map (λ b. events_at (slice_get (graph_in graph.now).blocks b)) blocks.now) }
{
    let mut events = Vec::new(alloc);
    for block in blocks {
        add_events(&mut events, graph, *block)?;
    }
    Ok(events)
}

// The events of the blocks that control reaches.
fn events_of<'a>(alloc: Global, graph: &Graph<'a>) -> Result<Vec<Event<'a>>, AllocError>
    ensures { IfOk result (λ events. IsExactly (map event_of events.items) (Happens (graph_in graph.now))) }
{
    let blocks = reached(alloc, graph)?;
    events_in(alloc, graph, blocks.as_slice())
}

/// The events of the function with a number, in the blocks that control reaches; none where there is no such function.
pub(crate) fn events_at<'a>(
    alloc: Global,
    tables: &[FunctionTable<'_, 'a>],
    number: u32,
) -> Result<Vec<Event<'a>>, AllocError>
    ensures { IfOk result (λ events. IsExactly (map event_of events.items) (HappensIn tables.now number)) }
{
    match table_at(tables, number) {
        Some(table) => events_of(alloc, table.graph),
        None => Ok(Vec::new(alloc)),
    }
}
