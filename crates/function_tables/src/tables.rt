//! The tables of all functions of a program.

ghost use Rattle.std.specs.Prelude.{◌≡◌, ◌≤◌, ◌<◌, length, map, Some, slice_get, IfOk};
ghost use Rattle.type_rules.specs.Functions.{Defined};
ghost use Rattle.typed_unit.specs.Texts.{texts_of};
ghost use Rattle.flow_graph.specs.Seen.{graph_in};
ghost use Rattle.path_model.specs.CheckerGraphs.Graphs.{AreGraphs, IsFlowGraphIn};
ghost use Rattle.function_tables.specs.Tables.{IsFunctionTable, AreTables};
ghost use Rattle.metal_tree.specs.Whole.{machine_view};
ghost use Rattle.call_graph.specs.OfPrograms.Definitions.{definitions, trees_in};

use crate::blocks::block_tables;
use crate::table::FunctionTable;
use call_graph::{FnId, Program};
use flow_graph::Graph;
use metal_tree::Machine;
use std::alloc::{AllocError, Global};

// The table of a function of a program, whose graph this is.
fn function_table<'u, 'a>(
    alloc: Global,
    program: &Program<'u, 'a>,
    graph: &'u Graph<'a>,
    machine: &Machine<'u>,
    depth: u8,
    f: FnId,
) -> Result<FunctionTable<'u, 'a>, AllocError>
    requires deep { depth ≤ 8 }
    requires there { f.number < length (definitions (trees_in program.now.units.items)) }
    requires graph { (d : Defined) → slice_get (definitions (trees_in program.now.units.items)) f.number ≡ Some d → ∥ IsFlowGraphIn (texts_of program.now.units.items) d (graph_in graph.now) ∥₁ }
    ensures table { IfOk result (λ table. (d : Defined) → slice_get (definitions (trees_in program.now.units.items)) f.number ≡ Some d → ∥ IsFunctionTable (machine_view machine.now) depth (texts_of program.now.units.items) d table ∥₁) }
    ensures graph { IfOk result (λ table. graph_in table.graph.now ≡ graph_in graph.now) }
{
    let function = program.function(f);
    let blocks = block_tables(alloc, program, machine, depth, function, graph)?;
    Ok(FunctionTable { graph, blocks })
}

/// The table of each function of a program under a checker, by its number, over the graphs of the functions. Objects have at most
/// `depth` steps. Each rule is matched at each event once, and each call that ends a block is followed once. The only fault is want of
/// memory.
pub fn build_tables<'u, 'a>(
    alloc: Global,
    program: &Program<'u, 'a>,
    graphs: &'u [Graph<'a>],
    machine: &Machine<'u>,
    depth: u8,
) -> Result<Vec<FunctionTable<'u, 'a>>, AllocError>
    requires deep { depth ≤ 8 }
    requires graphs { ∥ AreGraphs (texts_of program.now.units.items) (map (λ g. graph_in g) graphs.now) ∥₁ }
    ensures tables { IfOk result (λ tables. ∥ AreTables (machine_view machine.now) depth (texts_of program.now.units.items) tables.items ∥₁) }
    ensures graphs { IfOk result (λ tables. map (λ t. graph_in t.graph.now) tables.items ≡ map (λ g. graph_in g) graphs.now) }
{
    let mut tables = Vec::with_capacity(alloc, program.count() as usize)?;
    for number in 0..program.count() {
        let graph = &graphs[number as usize];
        let table = function_table(alloc, program, graph, machine, depth, FnId { number })?;
        tables.push(table)?;
    }
    Ok(tables)
}
