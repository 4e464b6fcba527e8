//! The callees of followed calls.

ghost use Rattle.std.specs.Prelude.{◌≡◌, ℕ, List, IfSome, Some, slice_get};
ghost use Rattle.flow_graph.specs.CPaths.Events.{Event};
ghost use Rattle.flow_graph.specs.CPaths.Fragments.{Has};
ghost use Rattle.flow_graph.specs.CPaths.Graphs.{Calls};
ghost use Rattle.c_tree.specs.Node.{Node};
ghost use Rattle.type_rules.specs.Functions.{Defined};
ghost use Rattle.type_rules.specs.Options.{◌>?◌};
ghost use Rattle.path_model.specs.CheckerGraphs.Graphs.{function_at};
ghost use Rattle.path_model.specs.CheckerPrograms.Roots.{followed_into};
ghost use Rattle.path_model.specs.CheckerPrograms.Texts.{function_of, functions_in, site};
ghost use Rattle.function_tables.specs.EngineTables.Known.{AreKnown, IsFrame, checker_in, texts_in};
ghost use Rattle.flow_graph.specs.Seen.{graph_in};
ghost use Rattle.function_tables.specs.Tables.{AreBlockTables};

use function_tables::{Frame, FunctionTable, Tables, callee_at};

/// A function that is called, with its number.
#[derive(Drop)]
pub(crate) struct Callee<'t, 'u, 'a> {
    pub(crate) number: u32,
    pub(crate) frame: Frame<'t, 'u, 'a>,
}

/// The function into which the call at the end of a block is followed, if it ends in one that is.
pub(crate) fn callee_of<'t, 'u, 'a>(
    tables: &Tables<'t, 'u, 'a>,
    table: &FunctionTable,
    block: u32,
) -> Option<Callee<'t, 'u, 'a>>
    ensures there { IfSome result (λ k. IsFrame tables.now k.number k.frame) }
    ensures followed { AreKnown tables.now → (n : ℕ) (d : Defined) (es : List Event) (call : Node) (next : ℕ) → slice_get (functions_in (texts_in tables.now)) n ≡ Some d → AreBlockTables (checker_in tables.now).machine tables.now.depth (texts_in tables.now) d (graph_in table.now.graph.now).blocks table.now.blocks.items → Has (graph_in table.now.graph.now).blocks block es (Calls call next) → followed_into (checker_in tables.now).machine (site tables.now.depth (texts_in tables.now) (function_of d) call) ≡ (result >? λ k. function_at (texts_in tables.now) k.number) }
{
    let number = callee_at(table, block)?;
    let frame = tables.frame(number)?;
    Some(Callee { number, frame })
}
