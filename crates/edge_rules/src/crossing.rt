//! The tuples at the ends of blocks.

ghost use Rattle.std.specs.Prelude.{◌≡◌, IfOk};
ghost use Rattle.least_set.specs.Logs.{IsExactly};
ghost use Rattle.function_tables.specs.EngineTables.Known.{AreKnown, IsFrame, checker_in, texts_in, graphs_in, objects_in};
ghost use Rattle.path_edges.specs.EdgeSteps.Steps.{StandsBehind};

use block_flows::ends;
use function_tables::{Frame, Tables, item};
use path_edges::Edge;
use state_tuples::Tuple;
use std::alloc::{AllocError, Global};

// The tuples at the end of an edge's block, in the function in which it is.
fn crossed(
    alloc: Global,
    tables: &Tables,
    frame: &Frame,
    edge: &Edge,
) -> Result<Vec<Tuple>, AllocError>
    ensures { IfOk result (λ list. AreKnown tables.now → IsFrame tables.now edge.now.context.function frame.now → IsExactly list.items (StandsBehind (checker_in tables.now) (texts_in tables.now) (graphs_in tables.now) (objects_in tables.now) edge.now)) }
{
    match item(frame.table.blocks.as_slice(), edge.block) {
        Some(block) => ends(
            alloc,
            block.rules.as_slice(),
            edge.is_root,
            &edge.tuple,
            frame.objects,
        ),
        None => ends(alloc, &[], edge.is_root, &edge.tuple, frame.objects),
    }
}

/// The tuples at the end of an edge's block. Any edge may be asked for, also one in a function that isn't there; then there are none.
pub fn behind(alloc: Global, tables: &Tables, edge: &Edge) -> Result<Vec<Tuple>, AllocError>
    ensures { IfOk result (λ list. AreKnown tables.now → IsExactly list.items (StandsBehind (checker_in tables.now) (texts_in tables.now) (graphs_in tables.now) (objects_in tables.now) edge.now)) }
{
    match tables.frame(edge.context.function) {
        Some(frame) => crossed(alloc, tables, &frame, edge),
        None => Ok(Vec::new(alloc)),
    }
}
