//! Blocks that only lead on are led round: where an end, or the way into the function, leads to a block without events that
//! leads to one other, it leads to where that leads. Such blocks stay, and nothing leads to them; of those that lead on to one
//! another in a circle one is left, which leads to itself.

ghost use Rattle.std.specs.Prelude.{◌≡◌, ◌<◌, ◌^◌, ℕ, List, [], ◌∷◌, length, map, IfOk, IfSome, OnOk};
ghost use Rattle.flow_graph.specs.CPaths.Forwarders.{Forwards, ComesTo, redirected};
ghost use Rattle.flow_graph.specs.CPaths.Graphs.{Block as BasicBlock, ToAny};
ghost use Rattle.flow_graph.specs.Finals.{AreFinal, AllComeTo};
ghost use Rattle.flow_graph.specs.Joins.{Replaces};
ghost use Rattle.flow_graph.specs.Seen.{graph_in, graph_with};
ghost use Rattle.flow_graph.specs.Targets.{target_of};
ghost use Rattle.flow_graph.specs.Values.{event_of, ending_of, block_of, blocks_of};

use crate::graph::{Block, Graph};
use crate::joining::only_target;
use crate::targets::{each_itself, redirect_end, set_target, target_of};
use std::alloc::{AllocError, Global};

/// The one block to which a block without events leads.
fn forward(block: &Block) -> Option<u32>
    ensures silent { IfSome result (λ _. map event_of block.now.events.items ≡ []) }
    ensures leads { IfSome result (λ next. ending_of block.now.end ≡ ToAny (next ∷ [])) }
{
    if !block.events.is_empty() {
        return None;
    }
    let next = only_target(&block.end)?;
    Some(next)
}

/// The block to which the block of this number only leads, unless that was gone over.
#[tactic(auto, using(crate::proofs::BlockLists::block_read))]
fn next_of(blocks: &[Block], seen: &[bool], number: u32) -> Option<u32>
    ensures within { IfSome result (λ _. number < length seen.now) }
    ensures forwards { IfSome result (λ next. Forwards (blocks_of blocks.now) number next) }
{
    let index = number as usize;
    if index >= blocks.len() || index >= seen.len() || seen[index] {
        return None;
    }
    let next = forward(&blocks[index])?;
    Some(next)
}

/// A way over blocks that only lead on.
#[derive(Drop)]
struct Walk {
    /// Those that it goes over.
    passed: Vec<u32>,
    /// The block where it ends: one that does more, or that was gone over before.
    end: u32,
}

/// The way from a block over those that only lead on and weren't gone over.
fn walk_from(
    alloc: Global,
    blocks: &[Block],
    seen: &mut [bool],
    start: u32,
) -> Result<Walk, AllocError>
    ensures { IfOk result (λ w. AllComeTo (blocks_of blocks.now) w.end w.passed.items) }
{
    let mut passed = Vec::new(alloc);
    let mut end = start;
    for _turn in 0..blocks.len() {
        let Some(next) = next_of(blocks, seen, end) else {
            return Ok(Walk { passed, end });
        };
        seen[end as usize] = true;
        passed.push(end)?;
        end = next;
    }
    Ok(Walk { passed, end })
}

/// Notes where ways to a block end.
fn note(finals: &mut [u32], block: u32, end: u32)
    ensures { (g : List BasicBlock) → AreFinal g finals.old → ComesTo g block end → AreFinal g finals.new }
{
    set_target(finals, block, end);
}

/// The same for each of these blocks.
fn note_all(finals: &mut [u32], passed: &[u32], end: u32)
    ensures { (g : List BasicBlock) → AreFinal g finals.old → AllComeTo g end passed.now → AreFinal g finals.new }
{
    for block in passed {
        note(finals, *block, end);
    }
}

/// Finds where ways to a block end, and to those over which they go.
fn settle(
    alloc: Global,
    blocks: &[Block],
    seen: &mut [bool],
    finals: &mut [u32],
    block: u32,
) -> Result<(), AllocError>
    ensures { OnOk result (AreFinal (blocks_of blocks.now) finals.old → AreFinal (blocks_of blocks.now) finals.new) }
{
    let walk = walk_from(alloc, blocks, seen, block)?;
    let end = target_of(finals, walk.end);
    note_all(finals, walk.passed.as_slice(), end);
    Ok(())
}

/// Where ways to each block end. Each block is gone over once.
fn finals_of(alloc: Global, blocks: &[Block]) -> Result<Vec<u32>, AllocError>
    requires { length blocks.now < 2 ^ 32 }
    ensures { IfOk result (λ finals. AreFinal (blocks_of blocks.now) finals.items) }
{
    let count = blocks.len() as u32;
    let mut finals = each_itself(alloc, count)?;
    let mut seen = vec![in alloc; false; blocks.len()]?;
    for number in 0..count {
        settle(
            alloc,
            blocks,
            seen.as_mut_slice(),
            finals.as_mut_slice(),
            number,
        )?;
    }
    Ok(finals)
}

/// The block that leads to where ways to its targets end.
fn redirect<'a>(alloc: Global, finals: &[u32], block: Block<'a>) -> Result<Block<'a>, AllocError>
    ensures { IfOk result (λ b. block_of b ≡ redirected (target_of finals.now) (block_of block.entry)) }
{
    let Block { events, end } = block;
    let end = redirect_end(alloc, finals, &end)?;
    Ok(Block { events, end })
}

/// The same of each block.
fn redirect_all<'a>(
    alloc: Global,
    finals: &[u32],
    blocks: Vec<Block<'a>>,
) -> Result<Vec<Block<'a>>, AllocError>
    ensures { IfOk result (λ bs. blocks_of bs.items ≡ map (redirected (target_of finals.now)) (blocks_of blocks.entry.items)) }
{
    let mut straight = Vec::new(alloc);
    for block in blocks {
        let block = redirect(alloc, finals, block)?;
        straight.push(block)?;
    }
    Ok(straight)
}

/// The graph of these blocks, with ways that are led round those that only lead on.
pub(crate) fn straighten<'a>(
    alloc: Global,
    blocks: Vec<Block<'a>>,
    entry: u32,
) -> Result<Graph<'a>, AllocError>
    requires { length blocks.items < 2 ^ 32 }
    ensures { IfOk result (λ g. Replaces (graph_with blocks.entry.items entry) (graph_in g)) }
{
    let finals = finals_of(alloc, blocks.as_slice())?;
    let begin = target_of(finals.as_slice(), entry);
    let straight = redirect_all(alloc, finals.as_slice(), blocks)?;
    Ok(Graph::new(straight, begin))
}
