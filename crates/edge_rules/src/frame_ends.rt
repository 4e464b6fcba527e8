//! Ends of called frames.

ghost use Rattle.std.specs.Prelude.{◌≡◌, ◌↔◌, ◌&&◌, not, Some, slice_get};
ghost use Rattle.std.specs.Option.{option_map};
ghost use Rattle.path_edges.specs.declared.edges.Context.{Context as Called};
ghost use Rattle.flow_graph.specs.Seen.{graph_in};
ghost use Rattle.flow_graph.specs.Values.{ending_of};
ghost use Rattle.path_edges.specs.Relations.{IsEndOf};
ghost use Rattle.function_tables.specs.EngineTables.Known.{AreKnown, checker_in, texts_in, graphs_in, objects_in, is_stop};

use flow_graph::{End, Graph};
use function_tables::{Tables, end_at};
use path_edges::{Context, Edge, copy_context};

// Whether a block ends the function.
fn is_exit(end: &End) -> bool
    ensures { result ≡ is_stop (Some (ending_of end.now)) }
{
    match end {
        End::Goto(_) => false,
        End::Call { .. } => false,
        End::Exit => true,
    }
}

// Whether a function ends behind a block.
fn is_last(graph: &Graph, block: u32) -> bool
    ensures { result ≡ is_stop (option_map (λ b. b.ending) (slice_get (graph_in graph.now).blocks block)) }
{
    match end_at(graph, block) {
        None => false,
        Some(end) => is_exit(end),
    }
}

// Whether a called frame ends behind an edge's block, in the function that has this graph.
fn ends_call(graph: &Graph, edge: &Edge) -> bool
    ensures { result ≡ (not edge.now.is_root && is_stop (option_map (λ b. b.ending) (slice_get (graph_in graph.now).blocks edge.now.block))) }
{
    !edge.is_root && is_last(graph, edge.block)
}

/// The context of a called frame that ends behind an edge's block. A root's own frame has none that waits for its end.
pub fn end_of(tables: &Tables, edge: &Edge) -> Option<Context>
    ensures { AreKnown tables.now → (k : Called) → (result ≡ Some k) ↔ IsEndOf (checker_in tables.now) (texts_in tables.now) (graphs_in tables.now) (objects_in tables.now) edge.now k }
{
    let frame = tables.frame(edge.context.function)?;
    if ends_call(frame.table.graph, edge) {
        Some(copy_context(&edge.context))
    } else {
        None
    }
}
