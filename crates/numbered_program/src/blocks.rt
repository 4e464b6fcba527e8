//! The blocks of a function.

ghost use Rattle.std.specs.Prelude.{◌≡◌, ◌<◌, List, [], Some, IfOk, length, slice_get};
ghost use Rattle.flow_graph.specs.Seen.{graph_in};
ghost use Rattle.flow_graph.specs.Values.{ending_of};
ghost use Rattle.numbered_program.specs.Made.{AreBlocksOf, IsBlockAt};
ghost use Rattle.numbered_program.specs.Numbered.{EndsIn, IsSourceOf};
ghost use Rattle.path_model.specs.CheckerModel.Choices.{State};
ghost use Rattle.path_model.specs.CheckerModel.Happenings.{Function};

use crate::endings::made_ending;
use crate::event_tables::block_rows;
use crate::numbers::FunctionSource;
use crate::swaps::swapped;
use flow_graph::End;
use function_tables::{BlockTable, end_at, item};
use numbered_engine::{Block, Ending};
use row_flows::BlockRows;
use std::alloc::{AllocError, Global};

// A block without events, in which the function ends.
fn empty(alloc: Global) -> Result<Block, AllocError>
    ensures { IfOk result (λ r. r.rows.rows.items ≡ []) }
{
    let rows = BlockRows::new(alloc, Vec::new(alloc))?;
    Ok(Block {
        rows,
        ending: Ending::Exit,
    })
}

// The block that has this table and ends so.
fn made_block<'a>(
    alloc: Global,
    source: &FunctionSource<'_, '_, '_, 'a>,
    block: u32,
    table: &BlockTable,
    end: &End<'a>,
) -> Result<Block, AllocError>
    ensures { IfOk result (λ r. (states : List State) (f : Function) → IsSourceOf states source.now f → slice_get source.now.table.now.blocks.items block ≡ Some table.now → EndsIn source.now block (ending_of end.now) → IsBlockAt states source.now f block r) }
{
    let own = source.own;
    let rows = block_rows(alloc, &own.numbering, &own.index, table.rules.as_slice())?;
    let ending = made_ending(alloc, source, block, end)?;
    Ok(Block { rows, ending })
}

// The block that has this table.
fn block_with<'a>(
    alloc: Global,
    source: &FunctionSource<'_, '_, '_, 'a>,
    block: u32,
    table: &BlockTable,
) -> Result<Block, AllocError>
    ensures { IfOk result (λ r. (states : List State) (f : Function) → IsSourceOf states source.now f → slice_get source.now.table.now.blocks.items block ≡ Some table.now → IsBlockAt states source.now f block r) }
{
    match end_at(source.table.graph, block) {
        Some(end) => made_block(alloc, source, block, table, end),
        None => empty(alloc),
    }
}

// The block with a number in the graph. Of what isn't there nothing is said.
fn block_at<'a>(
    alloc: Global,
    source: &FunctionSource<'_, '_, '_, 'a>,
    block: u32,
) -> Result<Block, AllocError>
    ensures { IfOk result (λ r. (states : List State) (f : Function) → IsSourceOf states source.now f → block < length (graph_in source.now.table.now.graph.now).blocks → IsBlockAt states source.now f block r) }
{
    match item(source.table.blocks.as_slice(), block) {
        Some(table) => block_with(alloc, source, block, table),
        None => empty(alloc),
    }
}

/// All blocks of the graph of a function, the first in front.
pub(crate) fn all_blocks<'a>(
    alloc: Global,
    source: &FunctionSource<'_, '_, '_, 'a>,
) -> Result<Vec<Block>, AllocError>
    ensures { IfOk result (λ blocks. (states : List State) (f : Function) → IsSourceOf states source.now f → AreBlocksOf states source.now f blocks.items) }
{
    let graph = source.table.graph;
    let mut blocks = Vec::with_capacity(alloc, graph.count() as usize)?;
    for number in 0..graph.count() {
        let block = block_at(alloc, source, swapped(graph.entry(), number))?;
        blocks.push(block)?;
    }
    Ok(blocks)
}
