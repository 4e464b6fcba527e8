//! The blocks that control reaches, under new numbers. Those that were taken over or led round, and those of code to which nothing
//! leads, are left out.

ghost use Rattle.std.specs.Prelude.{◌≡◌, ◌<◌, ◌^◌, length, map, IfOk};
ghost use Rattle.flow_graph.specs.CPaths.Forwarders.{redirected};
ghost use Rattle.flow_graph.specs.CPaths.SoundGraphs.{IsSoundGraph};
ghost use Rattle.flow_graph.specs.Joins.{Replaces};
ghost use Rattle.flow_graph.specs.KeptBlocks.{HaveNumbers, nowhere, renumbered};
ghost use Rattle.flow_graph.specs.ReachedBlocks.Reached.{AllReached};
ghost use Rattle.flow_graph.specs.Seen.{graph_in};
ghost use Rattle.flow_graph.specs.Targets.{target_of};
ghost use Rattle.flow_graph.specs.Values.{block_of, blocks_of};

use crate::graph::{Block, End, Graph};
use crate::reached_blocks::reached;
use crate::targets::{redirect_end, set_target, target_of};
use std::alloc::{AllocError, Global};

/// Notes where each of these blocks stands in their list.
fn note_places(numbers: &mut [u32], kept: &[u32])
    requires { length kept.now < 2 ^ 32 }
    ensures { HaveNumbers (length kept.now) kept.now (length numbers.old) numbers.new }
{
    for place in 0..kept.len() {
        set_target(numbers, kept[place], place as u32);
    }
}

/// The new numbers of so many blocks of which these are kept: their places in the list.
fn numbers_of(alloc: Global, kept: &[u32], count: u32) -> Result<Vec<u32>, AllocError>
    requires { length kept.now < 2 ^ 32 }
    ensures { IfOk result (λ numbers. HaveNumbers (length kept.now) kept.now count numbers.items) }
{
    let mut numbers = vec![in alloc; 0; count as usize]?;
    note_places(numbers.as_mut_slice(), kept);
    Ok(numbers)
}

/// A block with an end that leads to new numbers.
fn copy_block<'a>(
    alloc: Global,
    numbers: &[u32],
    block: &Block<'a>,
) -> Result<Block<'a>, AllocError>
    ensures { IfOk result (λ copy. block_of copy ≡ redirected (target_of numbers.now) (block_of block.now)) }
{
    let events = Vec::from_slice(alloc, block.events.as_slice())?;
    let end = redirect_end(alloc, numbers, &block.end)?;
    Ok(Block { events, end })
}

/// A block in which nothing happens, and that leads nowhere.
fn lead_nowhere<'a>(alloc: Global) -> Block<'a>
    ensures { block_of result ≡ nowhere }
{
    Block {
        events: Vec::new(alloc),
        end: End::Goto(Vec::new(alloc)),
    }
}

/// The block of this number, with an end that leads to new numbers.
#[tactic(auto, using(crate::proofs::ReachedBlocks::NewNumbers::renumbered_there, crate::proofs::ReachedBlocks::NewNumbers::renumbered_past))]
fn renumber<'a>(
    alloc: Global,
    graph: &Graph<'a>,
    numbers: &[u32],
    number: u32,
) -> Result<Block<'a>, AllocError>
    ensures { IfOk result (λ block. block_of block ≡ renumbered (target_of numbers.now) (graph_in graph.now).blocks number) }
{
    if number < graph.count() {
        let block = copy_block(alloc, numbers, graph.block(number))?;
        Ok(block)
    } else {
        Ok(lead_nowhere(alloc))
    }
}

/// The same of each of these blocks.
fn renumber_all<'a>(
    alloc: Global,
    graph: &Graph<'a>,
    numbers: &[u32],
    kept: &[u32],
) -> Result<Vec<Block<'a>>, AllocError>
    ensures { IfOk result (λ blocks. blocks_of blocks.items ≡ map (renumbered (target_of numbers.now) (graph_in graph.now).blocks) kept.now) }
{
    let mut blocks = Vec::new(alloc);
    for number in kept {
        let block = renumber(alloc, graph, numbers, *number)?;
        blocks.push(block)?;
    }
    Ok(blocks)
}

/// The graph of the blocks that control reaches.
pub(crate) fn keep_reached<'a>(alloc: Global, graph: &Graph<'a>) -> Result<Graph<'a>, AllocError>
    ensures replaces { IfOk result (λ kept. IsSoundGraph (graph_in graph.now).blocks (graph_in graph.now).entry → Replaces (graph_in graph.now) (graph_in kept)) }
    ensures reached { IfOk result (λ kept. IsSoundGraph (graph_in graph.now).blocks (graph_in graph.now).entry → AllReached (graph_in kept)) }
{
    let kept = reached(alloc, graph)?;
    if kept.len() > u32::MAX as usize {
        return Err(AllocError);
    }
    let numbers = numbers_of(alloc, kept.as_slice(), graph.count())?;
    let blocks = renumber_all(alloc, graph, numbers.as_slice(), kept.as_slice())?;
    let entry = target_of(numbers.as_slice(), graph.entry());
    Ok(Graph::new(blocks, entry))
}
