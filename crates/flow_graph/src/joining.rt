//! Chains of blocks become one block. Where a block leads to one other, and nothing else leads there, it takes over what
//! happens in the other and how that ends; an exit keeps a block of its own. What was taken over stays, and nothing leads to it.

ghost use Rattle.std.specs.Prelude.{◌≡◌, ◌<◌, ◌≢◌, false, [], ◌∷◌, length, IfOk, IfSome, OnOk};
ghost use Rattle.flow_graph.specs.CPaths.Graphs.{ToAny, Stops};
ghost use Rattle.flow_graph.specs.Values.{ending_of, blocks_of};
ghost use Rattle.flow_graph.specs.Joins.{IsJoined, IsNext};

use crate::graph::{Block, End};
use std::alloc::{AllocError, Global};

/// Notes that one more end leads to a block. From two on they aren't counted.
fn note(counts: &mut [u8], target: u32)
    ensures { length counts.new ≡ length counts.old }
{
    let target = target as usize;
    if target < counts.len() && counts[target] < 2 {
        counts[target] += 1;
    }
}

/// Notes where an end leads.
fn note_end(counts: &mut [u8], end: &End)
    ensures { length counts.new ≡ length counts.old }
{
    match end {
        End::Goto(targets) => {
            for target in targets.as_slice() {
                note(counts, *target);
            }
        }
        End::Call { next, .. } => note(counts, *next),
        End::Exit => {}
    }
}

/// How many ends lead to each block, up to two. The entry is led to from outside.
fn count_ways(alloc: Global, blocks: &[Block], entry: u32) -> Result<Vec<u8>, AllocError>
    ensures { IfOk result (λ counts. length counts.items ≡ length blocks.now) }
{
    let mut counts = vec![in alloc; 0; blocks.len()]?;
    note(counts.as_mut_slice(), entry);
    for block in blocks {
        note_end(counts.as_mut_slice(), &block.end);
    }
    Ok(counts)
}

/// The one block that an end leads to.
pub(crate) fn only_target(end: &End) -> Option<u32>
    ensures { IfSome result (λ target. ending_of end.now ≡ ToAny (target ∷ [])) }
{
    match end {
        End::Goto(targets) => match targets.as_slice() {
            [target] => Some(*target),
            _ => None,
        },
        End::Call { .. } | End::Exit => None,
    }
}

/// Whether a block has the exit.
fn stops(end: &End) -> bool
    ensures { result ≡ false → ending_of end.now ≢ Stops }
{
    match end {
        End::Exit => true,
        End::Goto(_) | End::Call { .. } => false,
    }
}

/// The same end.
fn copy_end<'a>(alloc: Global, end: &End<'a>) -> Result<End<'a>, AllocError>
    ensures { IfOk result (λ copy. ending_of copy ≡ ending_of end.now) }
{
    match end {
        End::Goto(targets) => {
            let copy = Vec::from_slice(alloc, targets.as_slice())?;
            Ok(End::Goto(copy))
        }
        End::Call { site, next } => Ok(End::Call { site, next: *next }),
        End::Exit => Ok(End::Exit),
    }
}

/// The block that a block may take over: the only one that it leads to, where nothing else leads there and the function
/// doesn't end.
#[tactic(auto, using(crate::proofs::BlockLists::block_read))]
fn next_of(blocks: &[Block], counts: &[u8], number: usize) -> Option<usize>
    requires { number < length blocks.now }
    ensures within { IfSome result (λ next. next < length blocks.now) }
    ensures next { IfSome result (λ next. IsNext (blocks_of blocks.now) number next) }
{
    let next = only_target(&blocks[number].end)? as usize;
    if next >= blocks.len() || next >= counts.len() || counts[next] != 1 {
        return None;
    }
    if stops(&blocks[next].end) {
        return None;
    }
    Some(next)
}

/// A block takes over what happens in the next one, and how it ends.
fn take_over<'a>(
    alloc: Global,
    blocks: &mut Vec<Block<'a>>,
    number: usize,
    next: usize,
) -> Result<(), AllocError>
    requires number_in { number < length blocks.old.items }
    requires next_in { next < length blocks.old.items }
    requires next { IsNext (blocks_of blocks.old.items) number next }
    ensures { OnOk result (IsJoined (blocks_of blocks.old.items) (blocks_of blocks.new.items)) }
{
    let events = Vec::from_slice(alloc, blocks[next].events.as_slice())?;
    let end = copy_end(alloc, &blocks[next].end)?;
    let block = &mut blocks[number];
    block.events.extend_from_slice(events.as_slice())?;
    block.end = end;
    Ok(())
}

/// A block takes over those behind it, one after the other.
fn join_chain(
    alloc: Global,
    blocks: &mut Vec<Block>,
    counts: &[u8],
    number: usize,
) -> Result<(), AllocError>
    requires { number < length blocks.old.items }
    ensures { OnOk result (IsJoined (blocks_of blocks.old.items) (blocks_of blocks.new.items)) }
{
    for _turn in 0..blocks.len() {
        let Some(next) = next_of(blocks.as_slice(), counts, number) else {
            return Ok(());
        };
        take_over(alloc, blocks, number, next)?;
    }
    Ok(())
}

/// Which blocks another one takes over.
fn taken_over(alloc: Global, blocks: &[Block], counts: &[u8]) -> Result<Vec<bool>, AllocError>
    ensures { IfOk result (λ taken. length taken.items ≡ length blocks.now) }
{
    let mut taken = vec![in alloc; false; blocks.len()]?;
    for number in 0..blocks.len() {
        if let Some(next) = next_of(blocks, counts, number) {
            taken[next] = true;
        }
    }
    Ok(taken)
}

/// Joins the blocks of each chain in its first one.
pub(crate) fn join_all(alloc: Global, blocks: &mut Vec<Block>, entry: u32) -> Result<(), AllocError>
    ensures { OnOk result (IsJoined (blocks_of blocks.old.items) (blocks_of blocks.new.items)) }
{
    let counts = count_ways(alloc, blocks.as_slice(), entry)?;
    let taken = taken_over(alloc, blocks.as_slice(), counts.as_slice())?;
    for number in 0..taken.len() {
        if !taken[number] {
            join_chain(alloc, blocks, counts.as_slice(), number)?;
        }
    }
    Ok(())
}
