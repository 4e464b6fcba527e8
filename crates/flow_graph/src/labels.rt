//! The labels of a function, with the blocks where their statements begin (ISO 9899:1990, 6.6.1).

ghost use Rattle.std.specs.Prelude.{◌≡◌, ◌==◌, ℕ, [], ◌∷◌, ◌++◌, IfOk, MatchResult};
ghost use Rattle.flow_graph.specs.CPaths.Listing.{if_so};
ghost use Rattle.flow_graph.specs.CPaths.Building.{label_blocks};
ghost use Rattle.flow_graph.specs.Labels.{entry_in, blocks_at};

use indexmap::IndexMap;
use std::alloc::{AllocError, Global};
use std::marker::Model;

/// A label, and the block where its statement begins.
#[derive(Clone, Copy)]
pub(crate) struct Entry {
    pub(crate) label: u32,
    pub(crate) block: u32,
}

/// Labels with their blocks, in the order in which they came. The blocks of a label are found in constant time.
#[derive(Drop)]
pub(crate) struct Labels {
    alloc: Global,
    entries: Vec<Entry>,
    // The blocks of each label.
    blocks: IndexMap<u32, Vec<u32>>,
}

impl Model for Labels {
    ghost use Rattle.std.specs.Prelude.{◌≡◌, ℕ, List};
    ghost use Rattle.flow_graph.specs.CPaths.Building.{label_blocks};
    ghost use Rattle.flow_graph.specs.CPaths.Layout.{Entry as LabelEntry};
    ghost use Rattle.flow_graph.specs.Labels.{entries_in, blocks_at};

    ghost Value = { List LabelEntry };

    ghost view = { λ l. entries_in l.entries.items };

    ghost invariant = { λ l. (label : ℕ) → blocks_at l.blocks label ≡ label_blocks label (entries_in l.entries.items) };
}

impl Labels {
    /// No labels. No memory is taken yet.
    pub(crate) fn new(alloc: Global) -> Labels
        ensures { result ≡ [] }
    {
        Labels {
            alloc,
            entries: Vec::new(alloc),
            blocks: IndexMap::new(alloc),
        }
    }

    /// Adds a label with its block, behind the others.
    #[tactic(auto, using(crate::proofs::LabelLists::label_push))]
    pub(crate) fn add(&mut self, entry: Entry) -> Result<(), AllocError>
        ensures { IfOk result (λ _. self.new ≡ self.old ++ entry_in entry ∷ []) }
    {
        self.entries.reserve(1)?;
        push_block(self.alloc, &mut self.blocks, entry)?;
        self.entries.push(entry)?;
        Ok(())
    }

    /// The blocks of a label, in the order in which they came.
    pub(crate) fn blocks_of(&self, label: u32) -> &[u32]
        ensures { result.now ≡ label_blocks label self.now }
    {
        match self.blocks.get(&label) {
            Some(blocks) => blocks.as_slice(),
            None => &[],
        }
    }
}

/// Puts a block behind those of its label.
fn push_block(
    alloc: Global,
    blocks: &mut IndexMap<u32, Vec<u32>>,
    entry: Entry,
) -> Result<(), AllocError>
    ensures { MatchResult result (λ _. (label : ℕ) → blocks_at blocks.new label ≡ blocks_at blocks.old label ++ if_so (entry.label == label) entry.block) (λ _. (label : ℕ) → blocks_at blocks.new label ≡ blocks_at blocks.old label) }
{
    if let Some(known) = blocks.get_mut(&entry.label) {
        known.push(entry.block)?;
        return Ok(());
    }
    let first = vec![in alloc; entry.block]?;
    blocks.insert(entry.label, first)?;
    Ok(())
}
