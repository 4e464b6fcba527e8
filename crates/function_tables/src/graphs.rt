//! The flow graphs of all functions of a program.

ghost use Rattle.std.specs.Prelude.{map, IfOk};
ghost use Rattle.flow_graph.specs.Seen.{graph_in};
ghost use Rattle.path_model.specs.CheckerGraphs.Graphs.{AreGraphs};
ghost use Rattle.typed_unit.specs.Texts.{texts_of};

use call_graph::{FnId, Program, build};
use flow_graph::Graph;
use std::alloc::{AllocError, Global};

/// The flow graph of each function of a program, by its number: each has exactly the traces of its function. No checker changes them,
/// so that one list serves all. The only fault is want of memory.
pub fn build_graphs<'a>(
    alloc: Global,
    program: &Program<'_, 'a>,
) -> Result<Vec<Graph<'a>>, AllocError>
    ensures { IfOk result (λ graphs. ∥ AreGraphs (texts_of program.now.units.items) (map (λ g. graph_in g) graphs.items) ∥₁) }
{
    let mut graphs = Vec::with_capacity(alloc, program.count() as usize)?;
    for number in 0..program.count() {
        let graph = build(alloc, program, FnId { number })?;
        graphs.push(graph)?;
    }
    Ok(graphs)
}
