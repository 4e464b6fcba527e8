//! Tables of blocks and of functions.

use flow_graph::Graph;
use state_tuples::EventRules;

/// What is asked of a basic block.
#[derive(Drop)]
pub struct BlockTable<'u, 'a> {
    /// The rules of its events, in order.
    pub rules: Vec<EventRules<'u, 'a>>,
    /// The number of the function into which the call at its end is followed; `None` where it ends in no call that is.
    pub callee: Option<u32>,
}

/// What is asked of a function.
#[derive(Drop)]
pub struct FunctionTable<'u, 'a> {
    pub graph: &'u Graph<'a>,
    /// One for each block of the graph, by the block's number.
    pub blocks: Vec<BlockTable<'u, 'a>>,
}
