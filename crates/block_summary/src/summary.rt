//! Summaries of the blocks of a program.

ghost use Rattle.std.specs.Prelude.{◌≡◌, ℕ, List, Bool, IsSome, IsTrue, IsOk, IfOk, OnOk, OnErr, None, Some, option_copied, true};
ghost use Rattle.block_summary.specs.Exits.{AreExits};
ghost use Rattle.row_flows.specs.Concerns.{all_calm};
ghost use Rattle.block_summary.specs.Kept.{IsRight, Keeps, held_in, is_marked, kept_in, mark_row};
ghost use Rattle.block_summary.specs.declared.keys.Entered.{Entered as Way};
ghost use Rattle.row_flows.specs.declared.rows.EventRow.{EventRow};

use crate::exits::{Exits, unchanged, worked_out};
use crate::keys::{Entered, MarkRow};
use entry_log::EntrySet;
use indexmap::IndexMap;
use mx_base::Steps;
use row_flows::BlockRows;
use std::alloc::{AllocError, Global};

/// What was worked out for blocks, by how each was entered. Nearly all blocks leave nearly all tuples alone: these are only
/// marked, and share their exits.
#[derive(Drop)]
pub struct BlockSummary {
    // blocks that were found to leave the tuple alone
    marked: EntrySet<MarkRow>,
    // the exits of the others
    kept: IndexMap<Entered, Exits>,
    // those of a tuple that is left alone
    unchanged: Exits,
}

// The row of marks for a block that is entered so.
fn mark_row(entered: &Entered) -> MarkRow
    ensures { result ≡ mark_row entered.now }
{
    MarkRow {
        function: entered.function,
        tuple: entered.tuple,
        is_root: entered.is_root,
    }
}

impl BlockSummary {
    /// One that holds nothing.
    pub fn new(alloc: Global) -> BlockSummary
        ensures held { (x : Way) → held_in result x ≡ None }
        ensures right { (rows_of : ℕ → ℕ → List EventRow) (own_of : ℕ → List Bool) → IsRight rows_of own_of result }
    {
        BlockSummary {
            marked: EntrySet::new(alloc),
            kept: IndexMap::new(alloc),
            unchanged: unchanged(alloc),
        }
    }

    /// The exits that are held for a block that is entered so, if any.
    pub fn held(&self, entered: &Entered) -> Option<&Exits>
        ensures { option_copied result ≡ held_in self.now entered.now }
    {
        if self.is_marked(entered) {
            return Some(&self.unchanged);
        }
        self.kept.get(entered)
    }

    // Whether a block was found to leave the tuple alone.
    fn is_marked(&self, entered: &Entered) -> bool
        ensures { result ≡ is_marked self.now entered.now }
    {
        self.marked.contains(&mark_row(entered), entered.block)
    }

    // What is held for a block that is entered so: what all share, or its own.
    fn lent(&self, entered: &Entered, is_shared: bool) -> &Exits
        requires held { IsSome (held_in self.now entered.now) }
        requires shared { IsTrue is_shared → held_in self.now entered.now ≡ Some self.now.unchanged }
        ensures { held_in self.now entered.now ≡ Some result.now }
    {
        if is_shared {
            return &self.unchanged;
        }
        match self.held(entered) {
            Some(exits) => exits,
            None => unreachable!(),
        }
    }
}

// Marks a block as one that leaves the tuple alone.
fn mark(
    summary: &mut BlockSummary,
    block: &BlockRows,
    own: &[bool],
    entered: Entered,
) -> Result<(), AllocError>
    requires absent { kept_in summary.now entered ≡ None }
    requires calm { all_calm entered.tuple.object block.now.rows.items ≡ true }
    ensures there { OnOk result (held_in summary.new entered ≡ Some summary.new.unchanged) }
    ensures keeps { Keeps summary.old summary.new }
    ensures held { IsSome (held_in summary.old entered) → IsOk result }
    ensures refused { OnErr result ((x : Way) → held_in summary.new x ≡ held_in summary.old x) }
    ensures right { (rows_of : ℕ → ℕ → List EventRow) (own_of : ℕ → List Bool) → rows_of entered.function entered.block ≡ block.now.rows.items → own_of entered.function ≡ own.now → IsRight rows_of own_of summary.old → IsRight rows_of own_of summary.new }
{
    summary.marked.insert(mark_row(&entered), entered.block)?;
    Ok(())
}

// Keeps the exits of a block.
fn keep(
    summary: &mut BlockSummary,
    block: &BlockRows,
    own: &[bool],
    entered: Entered,
    exits: Exits,
) -> Result<(), AllocError>
    requires absent { held_in summary.now entered ≡ None }
    requires exits { AreExits block.now.rows.items entered.is_root own.now entered.tuple exits }
    ensures there { OnOk result (IsSome (held_in summary.new entered)) }
    ensures keeps { Keeps summary.old summary.new }
    ensures refused { OnErr result ((x : Way) → held_in summary.new x ≡ held_in summary.old x) }
    ensures right { (rows_of : ℕ → ℕ → List EventRow) (own_of : ℕ → List Bool) → rows_of entered.function entered.block ≡ block.now.rows.items → own_of entered.function ≡ own.now → IsRight rows_of own_of summary.old → IsRight rows_of own_of summary.new }
{
    summary.kept.insert(entered, exits)?;
    Ok(())
}

// Works out what a block leads to that is entered so, and keeps it, unless it is held.
fn hold(
    summary: &mut BlockSummary,
    alloc: Global,
    block: &BlockRows,
    own: &[bool],
    entered: Entered,
) -> Result<(), AllocError>
    ensures there { OnOk result (IsSome (held_in summary.new entered)) }
    ensures keeps { Keeps summary.old summary.new }
    ensures refused { OnErr result ((x : Way) → held_in summary.new x ≡ held_in summary.old x) }
    ensures held { IsSome (held_in summary.old entered) → IsOk result }
    ensures right { (rows_of : ℕ → ℕ → List EventRow) (own_of : ℕ → List Bool) → rows_of entered.function entered.block ≡ block.now.rows.items → own_of entered.function ≡ own.now → IsRight rows_of own_of summary.old → IsRight rows_of own_of summary.new }
{
    if summary.held(&entered).is_some() {
        return Ok(());
    }
    let exits = worked_out(alloc, block, own, entered.tuple, entered.is_root)?;
    keep(summary, block, own, entered, exits)
}

// Whether a block leaves the tuple alone, and nothing is kept for it.
fn is_to_mark(summary: &BlockSummary, block: &BlockRows, entered: &Entered) -> bool
    ensures calm { IsTrue result → all_calm entered.now.tuple.object block.now.rows.items ≡ true }
    ensures absent { IsTrue result → kept_in summary.now entered.now ≡ None }
{
    if !block.leaves_calm(entered.tuple.object) {
        return false;
    }
    summary.kept.get(entered).is_none()
}

// Marks a block that leaves the tuple alone, and holds what others lead to. Says whether it was marked.
fn mark_or_hold(
    summary: &mut BlockSummary,
    alloc: Global,
    block: &BlockRows,
    own: &[bool],
    entered: Entered,
) -> Result<bool, AllocError>
    ensures there { OnOk result (IsSome (held_in summary.new entered)) }
    ensures shared { IfOk result (λ is_shared. IsTrue is_shared → held_in summary.new entered ≡ Some summary.new.unchanged) }
    ensures keeps { Keeps summary.old summary.new }
    ensures refused { OnErr result ((x : Way) → held_in summary.new x ≡ held_in summary.old x) }
    ensures held { IsSome (held_in summary.old entered) → IsOk result }
    ensures right { (rows_of : ℕ → ℕ → List EventRow) (own_of : ℕ → List Bool) → rows_of entered.function entered.block ≡ block.now.rows.items → own_of entered.function ≡ own.now → IsRight rows_of own_of summary.old → IsRight rows_of own_of summary.new }
{
    if is_to_mark(summary, block, &entered) {
        mark(summary, block, own, entered)?;
        return Ok(true);
    }
    hold(summary, alloc, block, own, entered)?;
    Ok(false)
}

impl BlockSummary {
    ghost use Rattle.std.specs.Prelude.{◌≡◌, ◌+◌, ◌-◌, ◌^◌, min, IsSome, IsOk};
    ghost use Rattle.std.specs.Borrow.{sem};
    ghost use Rattle.block_summary.specs.Kept.{held_in};
    ghost use Rattle.block_summary.specs.Lending.{Ends};

    /// What a block leads to that is entered so: what is held, or else what is worked out now and then held. It counts as one
    /// step either way.
    pub fn enter<'s, L>(
        &'s mut self,
        alloc: Global,
        block: &BlockRows,
        own: &[bool],
        entered: Entered,
        steps: &mut Steps<L>,
    ) -> Result<&'s Exits, AllocError>
        ensures* ends { sem 𝓛 (Ends self.entry block.now own.now entered result) }
        ensures held { IsSome (held_in self.entry.now entered) → IsOk result }
        ensures ticks { steps.new.count ≡ min (steps.old.count + 1) (2 ^ 64 - 1) }
    {
        steps.tick();
        let is_shared = mark_or_hold(self, alloc, block, own, entered)?;
        Ok(self.lent(&entered, is_shared))
    }
}
