//! New targets of ends, as a list by the numbers of blocks: where ways to a block end, or the number that it has later.

ghost use Rattle.std.specs.Prelude.{◌≡◌, ℕ, length, map, slice_set, IfOk};
ghost use Rattle.flow_graph.specs.CPaths.Forwarders.{led};
ghost use Rattle.flow_graph.specs.Targets.{target_of};
ghost use Rattle.flow_graph.specs.Values.{ending_of};

use crate::graph::End;
use std::alloc::{AllocError, Global};

/// What stands in place of a block.
pub(crate) fn target_of(targets: &[u32], block: u32) -> u32
    ensures { result ≡ target_of targets.now block }
{
    match targets.get(block as usize).copied() {
        Some(target) => target,
        None => block,
    }
}

/// Notes what stands in place of a block, if the list has so many.
pub(crate) fn set_target(targets: &mut [u32], block: u32, target: u32)
    ensures { targets.new ≡ slice_set targets.old block target }
{
    let index = block as usize;
    if index < targets.len() {
        targets[index] = target;
    }
}

/// Each of this many blocks in its own place.
pub(crate) fn each_itself(alloc: Global, count: u32) -> Result<Vec<u32>, AllocError>
    ensures all { IfOk result (λ targets. length targets.items ≡ count) }
    ensures itself { IfOk result (λ targets. (block : ℕ) → target_of targets.items block ≡ block) }
{
    let mut targets = Vec::new(alloc);
    for number in 0..count {
        targets.push(number)?;
    }
    Ok(targets)
}

/// What stands in place of each of these blocks.
fn target_each(alloc: Global, targets: &[u32], blocks: &[u32]) -> Result<Vec<u32>, AllocError>
    ensures { IfOk result (λ ends. ends.items ≡ map (target_of targets.now) blocks.now) }
{
    let mut ends = Vec::new(alloc);
    for block in blocks {
        ends.push(target_of(targets, *block))?;
    }
    Ok(ends)
}

/// The same end, which leads to what stands in place of its targets.
pub(crate) fn redirect_end<'a>(
    alloc: Global,
    targets: &[u32],
    end: &End<'a>,
) -> Result<End<'a>, AllocError>
    ensures { IfOk result (λ e. ending_of e ≡ led (target_of targets.now) (ending_of end.now)) }
{
    match end {
        End::Goto(blocks) => {
            let ends = target_each(alloc, targets, blocks.as_slice())?;
            Ok(End::Goto(ends))
        }
        End::Call { site, next } => Ok(End::Call {
            site,
            next: target_of(targets, *next),
        }),
        End::Exit => Ok(End::Exit),
    }
}
