//! Objects that rules bind in blocks.

ghost use Rattle.std.specs.Prelude.{ℕ, List, IfOk};
ghost use Rattle.relevant.specs.BoundMembers.Bound.{BoundIn};
ghost use Rattle.flow_graph.specs.CPaths.Graphs.{Block};
ghost use Rattle.type_rules.specs.Functions.{Defined};
ghost use Rattle.typed_unit.specs.Texts.{Text};
ghost use Rattle.function_tables.specs.Tables.{AreBlockTables};
ghost use Rattle.least_set.specs.Logs.{Adds, SomeGives};
ghost use Rattle.metal_tree.specs.MetalMachines.Machine.{Machine};

use crate::bound_members::events::add_at_events;
use crate::bound_members::items::item;
use function_tables::BlockTable;
use objects::Object;
use state_tuples::RuleSources;
use std::alloc::{AllocError, Global};

// Puts last what rules bind in the block with this number, of those that begin in these states.
fn add_in_block(
    alloc: Global,
    found: &mut Vec<(u32, Object)>,
    tables: &[BlockTable],
    block: u32,
    number: u32,
    sources: RuleSources,
) -> Result<(), AllocError>
    ensures { IfOk result (λ _. (m : Machine) (depth : ℕ) (ts : List Text) (d : Defined) (bs : List Block) → AreBlockTables m depth ts d bs tables.now → Adds (BoundIn sources m depth number ts d bs block) found.old.items found.new.items) }
{
    match item(tables, block) {
        Some(table) => add_at_events(alloc, found, table.rules.as_slice(), number, sources),
        None => Ok(()),
    }
}

/// Puts last what rules bind in these blocks of this function, of whose blocks the tables are; of the rules that begin in these states.
pub(crate) fn add_in_blocks(
    alloc: Global,
    found: &mut Vec<(u32, Object)>,
    tables: &[BlockTable],
    blocks: &[u32],
    number: u32,
    sources: RuleSources,
) -> Result<(), AllocError>
    ensures { IfOk result (λ _. (m : Machine) (depth : ℕ) (ts : List Text) (d : Defined) (bs : List Block) → AreBlockTables m depth ts d bs tables.now → Adds (SomeGives (BoundIn sources m depth number ts d bs) blocks.now) found.old.items found.new.items) }
{
    for block in blocks {
        add_in_block(alloc, found, tables, *block, number, sources)?;
    }
    Ok(())
}
