//! The log of path edges.

ghost use Rattle.std.specs.Prelude.{◌≡◌, [], length, slice_get};
ghost use Rattle.numbered_engine.specs.EdgeLists.{edge_at, row_in};

use crate::edges::{NumberedContext, NumberedEdge};
use entry_log::EntryLog;
use least_set::{Found, Key, Log};
use row_flows::NumberedTuple;
use std::alloc::{AllocError, Global};
use std::marker::Model;

/// A row of edges: the frame and the tuple that stand at several blocks.
#[derive(Clone, Copy, Debug, PartialEq, Eq, Hash)]
pub(crate) struct EdgeRow {
    pub(crate) context: NumberedContext,
    pub(crate) tuple: NumberedTuple,
}

impl Key for EdgeRow {
    ghost use Rattle.numbered_engine.specs.Ways.Equality.{same_row};

    ghost same = { same_row };
}

/// Path edges, each once, in the order in which they were found. As of an `IndexSet` a contract sees their list, `keys`. The
/// frame and the tuple are kept once for all their blocks, so that an edge takes eight bytes and a bit.
#[derive(Drop)]
pub struct EdgeLog {
    entries: EntryLog<EdgeRow>,
}

impl Model for EdgeLog {
    ghost use Rattle.numbered_engine.specs.EdgeLists.{Edges};

    ghost Value = { Edges };

    ghost use Rattle.numbered_engine.specs.EdgeLists.{edges_of};

    ghost view = { λ log. record { keys = edges_of log.entries.keys } };
}

// The edge of a row at a block.
fn edge_of(row: EdgeRow, block: u32) -> NumberedEdge
    ensures { result ≡ edge_at (row, block) }
{
    NumberedEdge {
        context: row.context,
        block,
        tuple: row.tuple,
    }
}

// The row of an edge.
fn row_of(edge: NumberedEdge) -> EdgeRow
    ensures { result ≡ row_in edge }
{
    EdgeRow {
        context: edge.context,
        tuple: edge.tuple,
    }
}

impl EdgeLog {
    /// No edges. It allocates nothing until the first insert.
    pub fn new(alloc: Global) -> Self
        ensures { result.keys ≡ [] }
    {
        EdgeLog {
            entries: EntryLog::new(alloc),
        }
    }

    /// The number of edges.
    pub fn len(&self) -> usize
        ensures { result ≡ length self.now.keys }
    {
        EntryLog::len(&self.entries)
    }

    /// The edge at an index.
    pub fn get(&self, index: usize) -> Option<NumberedEdge>
        ensures { result ≡ slice_get self.now.keys index }
    {
        match EntryLog::get(&self.entries, index) {
            Some((row, block)) => Some(edge_of(*row, block)),
            None => None,
        }
    }
}

impl Log<NumberedEdge> for EdgeLog {
    ghost keys = { λ log. log.keys };

    fn len(&self) -> usize {
        EntryLog::len(&self.entries)
    }

    fn get(&self, index: usize) -> Found<'_, NumberedEdge> {
        match EdgeLog::get(self, index) {
            Some(edge) => Found::Made(edge),
            None => unreachable!(),
        }
    }

    fn insert(&mut self, member: NumberedEdge) -> Result<bool, AllocError> {
        EntryLog::insert(&mut self.entries, row_of(member), member.block)
    }
}
