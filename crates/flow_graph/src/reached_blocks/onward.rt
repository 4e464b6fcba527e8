//! Where control may go on behind a block.

ghost use Rattle.std.specs.Prelude.{◌≡◌, ℕ, IfOk};
ghost use Rattle.flow_graph.specs.Seen.{graph_in};
ghost use Rattle.flow_graph.specs.Values.{ending_of};
ghost use Rattle.least_set.specs.Logs.{IsExactly};
ghost use Rattle.flow_graph.specs.ReachedBlocks.Reached.{GoesOn, Leads};

use crate::graph::{End, Graph};
use least_set::Steps;
use std::alloc::{AllocError, Global};

// The blocks in which control may go on behind a block that ends so.
fn behind(alloc: Global, end: &End) -> Result<Vec<u32>, AllocError>
    ensures { IfOk result (λ blocks. IsExactly blocks.items (GoesOn (ending_of end.now))) }
{
    match end {
        End::Goto(targets) => Vec::from_slice(alloc, targets.as_slice()),
        End::Call { next, .. } => Ok(vec![in alloc; *next]?),
        End::Exit => Ok(Vec::new(alloc)),
    }
}

// The blocks in which control may go on behind a block of this number; none if it isn't there.
fn after(alloc: Global, graph: &Graph, block: u32) -> Result<Vec<u32>, AllocError>
    ensures { IfOk result (λ blocks. IsExactly blocks.items (Leads (graph_in graph.now) block)) }
{
    if block < graph.count() {
        behind(alloc, &graph.block(block).end)
    } else {
        Ok(Vec::new(alloc))
    }
}

/// A graph as rules: its entry, and with a block each one in which control may go on behind it.
#[derive(Drop)]
pub(crate) struct Onward<'g, 'a> {
    pub(crate) graph: &'g Graph<'a>,
}

impl Steps for Onward<'_, '_> {
    type Member = u32;

    ghost base = { λ s b. (graph_in s.graph.now).entry ≡ b };

    ghost goes = { λ s b. Leads (graph_in s.graph.now) b };

    fn begin(&self, alloc: Global) -> Result<Vec<u32>, AllocError> {
        Ok(vec![in alloc; self.graph.entry()]?)
    }

    fn next(&self, alloc: Global, member: &u32) -> Result<Vec<u32>, AllocError> {
        after(alloc, self.graph, *member)
    }
}
