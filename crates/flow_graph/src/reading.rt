//! What a flow graph has: its blocks by number, and the one in which the function begins.

ghost use Rattle.std.specs.Prelude.{◌≡◌, ◌<◌, ◌^◌, Some, length, slice_get};
ghost use Rattle.flow_graph.specs.Values.{block_of, blocks_of};
ghost use Rattle.flow_graph.specs.Seen.{graph_in};

use crate::graph::{Block, Graph};

impl<'a> Graph<'a> {
    /// The graph of these blocks.
    pub(crate) fn new(blocks: Vec<Block<'a>>, entry: u32) -> Graph<'a>
        requires { length blocks.items < 2 ^ 32 }
        ensures blocks { (graph_in result).blocks ≡ blocks_of blocks.entry.items }
        ensures begins { (graph_in result).entry ≡ entry }
    {
        Graph { blocks, entry }
    }

    /// The number of blocks. They are numbered from 0.
    pub fn count(&self) -> u32
        ensures { result ≡ length (graph_in self.now).blocks }
    {
        self.blocks.len() as u32
    }

    /// The block in which the function begins.
    pub fn entry(&self) -> u32
        ensures number { result ≡ (graph_in self.now).entry }
    {
        self.entry
    }

    /// The block of this number.
    pub fn block(&self, number: u32) -> &Block<'a>
        requires { number < length (graph_in self.now).blocks }
        ensures { slice_get (graph_in self.now).blocks number ≡ Some (block_of result.now) }
    {
        &self.blocks[number as usize]
    }
}
