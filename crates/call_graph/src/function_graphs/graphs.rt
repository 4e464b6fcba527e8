//! The flow graphs of functions.

ghost use Rattle.std.specs.Prelude.{◌≡◌, ◌<◌, length, Some, slice_get, IfOk};
ghost use Rattle.flow_graph.specs.CPaths.SoundGraphs.{IsSoundGraph};
ghost use Rattle.type_rules.specs.Functions.{Defined};
ghost use Rattle.flow_graph.specs.Bodies.{HasTraces, StandsInText};
ghost use Rattle.flow_graph.specs.Seen.{graph_in};
ghost use Rattle.call_graph.specs.FunctionGraphs.Bodies.{definition_in};
ghost use Rattle.call_graph.specs.FunctionGraphs.Known.{facts_in};
ghost use Rattle.call_graph.specs.OfPrograms.Definitions.{definitions, trees_in};

use crate::function_graphs::closing::closing_brace;
use crate::function_graphs::unit_facts::UnitFacts;
use crate::programs::{FnId, Program};
use flow_graph::{Graph, build_body};
use std::alloc::{AllocError, Global};

/// The flow graph of a function of a program. Its traces are exactly the function's, and what stands in it stands in the
/// function's text. A call is marked where its callee has a body: that of its own file, else the one with external linkage
/// (ISO 9899:1990, 6.1.2.2).
pub fn build<'u, 'a>(
    alloc: Global,
    program: &Program<'u, 'a>,
    f: FnId,
) -> Result<Graph<'a>, AllocError>
    requires { f.number < length (definitions (trees_in program.now.units.items)) }
    ensures traces { IfOk result (λ g. (d : Defined) → slice_get (definitions (trees_in program.now.units.items)) f.number ≡ Some d → ∥ HasTraces (graph_in g) (facts_in program.now.units.items d.file) (definition_in program.now.units.items d) ∥₁) }
    ensures sound { IfOk result (λ g. IsSoundGraph (graph_in g).blocks (graph_in g).entry) }
    ensures text { IfOk result (λ g. (d : Defined) → slice_get (definitions (trees_in program.now.units.items)) f.number ≡ Some d → ∥ StandsInText (graph_in g) (facts_in program.now.units.items d.file) (definition_in program.now.units.items d) ∥₁) }
{
    let function = program.function(f);
    let unit = program.unit(function.file);
    let close = closing_brace(unit, function.body.first);
    let facts = UnitFacts::new(program, function.file);
    build_body(alloc, &facts, function.place, function.body, close)
}
