//! Drafts become blocks, once each label has its blocks.

ghost use Rattle.std.specs.Prelude.{◌≡◌, map, IfOk};
ghost use Rattle.flow_graph.specs.CPaths.Building.{settled_ending, settled};
ghost use Rattle.flow_graph.specs.Values.{ending_of, sketch_of, block_of, blocks_of, draft_of, drafts_of};

use crate::draft::{Draft, DraftEnd};
use crate::graph::{Block, End};
use crate::labels::Labels;
use std::alloc::{AllocError, Global};

/// How a block ends. A `goto` leads to the blocks of its label (ISO 9899:1990, 6.6.6.1).
fn settle_end<'a>(alloc: Global, end: DraftEnd<'a>, labels: &Labels) -> Result<End<'a>, AllocError>
    ensures { IfOk result (λ e. ending_of e ≡ settled_ending labels.now (sketch_of end.entry)) }
{
    match end {
        DraftEnd::Known(end) => Ok(end),
        DraftEnd::Label(label) => {
            let mut targets = Vec::new(alloc);
            targets.extend_from_slice(labels.blocks_of(label))?;
            Ok(End::Goto(targets))
        }
        DraftEnd::Open => Ok(End::Goto(Vec::new(alloc))),
    }
}

/// A block.
fn settle<'a>(alloc: Global, draft: Draft<'a>, labels: &Labels) -> Result<Block<'a>, AllocError>
    ensures { IfOk result (λ b. block_of b ≡ settled labels.now (draft_of draft.entry)) }
{
    let Draft { events, end } = draft;
    let end = settle_end(alloc, end, labels)?;
    Ok(Block { events, end })
}

/// The blocks of a graph.
pub(crate) fn settle_all<'a>(
    alloc: Global,
    drafts: Vec<Draft<'a>>,
    labels: &Labels,
) -> Result<Vec<Block<'a>>, AllocError>
    ensures { IfOk result (λ bs. blocks_of bs.items ≡ map (settled labels.now) (drafts_of drafts.entry.items)) }
{
    let mut blocks = Vec::new(alloc);
    for draft in drafts {
        let block = settle(alloc, draft, labels)?;
        blocks.push(block)?;
    }
    Ok(blocks)
}
