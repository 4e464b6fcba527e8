//! Objects that rules bind in functions.

ghost use Rattle.std.specs.Prelude.{ℕ, List, IfOk, map};
ghost use Rattle.relevant.specs.BoundMembers.Bound.{BoundOf, BoundWith};
ghost use Rattle.type_rules.specs.Functions.{Defined};
ghost use Rattle.path_model.specs.CheckerModel.Reports.{Checker};
ghost use Rattle.typed_unit.specs.Texts.{Text, texts_of};
ghost use Rattle.flow_graph.specs.Seen.{graph_in};
ghost use Rattle.function_tables.specs.Tables.{AreBlockTables, AreTables};
ghost use Rattle.least_set.specs.Logs.{Adds, IsExactly};
ghost use Rattle.metal_tree.specs.MetalMachines.Machine.{Machine};
ghost use Rattle.relevant.specs.RelevantSteps.Steps.{Base};

use crate::bound_members::blocks::add_in_blocks;
use crate::bound_members::items::item;
use call_graph::Program;
use flow_graph::reached;
use function_tables::FunctionTable;
use objects::Object;
use state_tuples::RuleSources;
use std::alloc::{AllocError, Global};

// Puts last what rules bind in the blocks of a function that control reaches, of those that begin in these states.
fn add_in_function(
    alloc: Global,
    found: &mut Vec<(u32, Object)>,
    table: &FunctionTable,
    number: u32,
    sources: RuleSources,
) -> Result<(), AllocError>
    ensures { IfOk result (λ _. (m : Machine) (depth : ℕ) (ts : List Text) (d : Defined) → AreBlockTables m depth ts d (graph_in table.now.graph.now).blocks table.now.blocks.items → Adds (BoundOf sources m depth number ts d (graph_in table.now.graph.now)) found.old.items found.new.items) }
{
    let blocks = reached(alloc, table.graph)?;
    add_in_blocks(
        alloc,
        found,
        table.blocks.as_slice(),
        blocks.as_slice(),
        number,
        sources,
    )
}

// Puts last what rules bind in the function with this number, of those that begin in these states.
fn add_with_number(
    alloc: Global,
    found: &mut Vec<(u32, Object)>,
    tables: &[FunctionTable],
    number: u32,
    sources: RuleSources,
) -> Result<(), AllocError>
    ensures { IfOk result (λ _. (c : Checker) (ts : List Text) → AreTables c.machine c.depth ts tables.now → Adds (BoundWith sources c ts (map (λ t. graph_in t.graph.now) tables.now) number) found.old.items found.new.items) }
{
    match item(tables, number) {
        Some(table) => add_in_function(alloc, found, table, number, sources),
        None => Ok(()),
    }
}

/// The objects that the rules of a checker that begin in these states bind in the functions of a program, each with the number of its
/// function: at each event of a block that control reaches, whatever the state. One may stand there more than once. The only fault is want
/// of memory.
pub fn bound(
    alloc: Global,
    program: &Program,
    tables: &[FunctionTable],
    sources: RuleSources,
) -> Result<Vec<(u32, Object)>, AllocError>
    ensures { IfOk result (λ list. (c : Checker) → AreTables c.machine c.depth (texts_of program.now.units.items) tables.now → IsExactly list.items (Base c (texts_of program.now.units.items) (map (λ t. graph_in t.graph.now) tables.now) sources)) }
{
    let mut found = Vec::new(alloc);
    for number in 0..program.count() {
        add_with_number(alloc, &mut found, tables, number, sources)?;
    }
    Ok(found)
}
