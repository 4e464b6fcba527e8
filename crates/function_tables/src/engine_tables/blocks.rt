//! Blocks of a function by their numbers.

ghost use Rattle.std.specs.Prelude.{◌≡◌, ℕ, List, slice_get};
ghost use Rattle.std.specs.Option.{option_map};
ghost use Rattle.flow_graph.specs.CPaths.Events.{Event};
ghost use Rattle.flow_graph.specs.CPaths.Fragments.{Has};
ghost use Rattle.flow_graph.specs.CPaths.Graphs.{Calls};
ghost use Rattle.c_tree.specs.Node.{Node};
ghost use Rattle.type_rules.specs.Functions.{Defined};
ghost use Rattle.call_graph.specs.Followed.{followed};
ghost use Rattle.path_model.specs.CheckerPrograms.Texts.{functions_in, type_table};
ghost use Rattle.typed_unit.specs.Texts.{Text};
ghost use Rattle.flow_graph.specs.Seen.{graph_in};
ghost use Rattle.flow_graph.specs.Values.{ending_of};
ghost use Rattle.function_tables.specs.Tables.{AreBlockTables};
ghost use Rattle.metal_tree.specs.MetalMachines.Machine.{Machine};

use crate::engine_tables::frames::item;
use crate::table::FunctionTable;
use flow_graph::{End, Graph};

/// How a block ends, if it is there.
pub fn end_at<'g, 'a>(graph: &'g Graph<'a>, block: u32) -> Option<&'g End<'a>>
    ensures { option_map (λ e. ending_of e.now) result ≡ option_map (λ b. b.ending) (slice_get (graph_in graph.now).blocks block) }
{
    if block < graph.count() {
        Some(&graph.block(block).end)
    } else {
        None
    }
}

/// The number of the function into which the call at the end of a block is followed, if it ends in one that is.
pub fn callee_at(table: &FunctionTable, block: u32) -> Option<u32>
    ensures { (m : Machine) (depth : ℕ) (ts : List Text) (d : Defined) (es : List Event) (n : Node) (next : ℕ) → AreBlockTables m depth ts d (graph_in table.now.graph.now).blocks table.now.blocks.items → Has (graph_in table.now.graph.now).blocks block es (Calls n next) → result ≡ followed m (type_table ts d.file) d.file (functions_in ts) n }
{
    match item(table.blocks.as_slice(), block) {
        Some(found) => found.callee,
        None => None,
    }
}
