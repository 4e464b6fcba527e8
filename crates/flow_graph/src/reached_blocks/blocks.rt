//! The blocks that control reaches.

ghost use Rattle.std.specs.Prelude.{IfOk};
ghost use Rattle.flow_graph.specs.Seen.{graph_in};
ghost use Rattle.flow_graph.specs.ReachedBlocks.Reached.{AreReached};

use crate::graph::Graph;
use crate::reached_blocks::onward::Onward;
use least_set::closure;
use std::alloc::{AllocError, Global};

/// The numbers of the blocks to which control may come from the entry of a graph: the entry, and with a block each one in which it may go
/// on, behind a call as if that came back. Each stands there once, in the order in which they are found. The work is linear in the number of
/// such blocks and of the ways between them.
pub fn reached(alloc: Global, graph: &Graph) -> Result<Vec<u32>, AllocError>
    ensures { IfOk result (λ blocks. AreReached (graph_in graph.now) blocks.items) }
{
    let found = closure(alloc, &Onward { graph })?;
    Vec::from_slice(alloc, found.as_slice())
}
