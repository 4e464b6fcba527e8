//! Numbers of blocks, where the first block of a graph has the number 0.

ghost use Rattle.std.specs.Prelude.{◌≡◌, map, IfOk};
ghost use Rattle.numbered_program.specs.Views.{swapped};

use std::alloc::{AllocError, Global};

/// The number of a block: the first block of the graph and the block 0 have each other's, and the others keep theirs.
pub fn swapped(first: u32, block: u32) -> u32
    ensures { result ≡ swapped first block }
{
    if block == 0 {
        first
    } else if block == first {
        0
    } else {
        block
    }
}

/// The numbers of these blocks, in their order.
pub(crate) fn all_swapped(alloc: Global, first: u32, blocks: &[u32]) -> Result<Vec<u32>, AllocError>
    ensures { IfOk result (λ list. list.items ≡ map (swapped first) blocks.now) }
{
    let mut list = Vec::new(alloc);
    for block in blocks {
        list.push(swapped(first, *block))?;
    }
    Ok(list)
}
