//! The flow graph of a function's body.

ghost use Rattle.std.specs.Prelude.{IfOk};
ghost use Rattle.c_tree.specs.Views.{node_of};
ghost use Rattle.flow_graph.specs.CPaths.SoundGraphs.{IsSoundGraph};
ghost use Rattle.flow_graph.specs.Bodies.{HasTraces, StandsInText};
ghost use Rattle.flow_graph.specs.ReachedBlocks.Reached.{AllReached};
ghost use Rattle.flow_graph.specs.Seen.{graph_in};

use crate::draft::DraftEnd;
use crate::facts::Facts;
use crate::forwarders::straighten;
use crate::graph::{End, Graph};
use crate::joining::join_all;
use crate::kept_blocks::keep_reached;
use crate::settling::settle_all;
use crate::statements::{Ahead, BodyBuilder};
use c_tree::{Place, Tree};
use std::alloc::{AllocError, Global};

/// The flow graph of a function whose name is defined at this place, with this body and this closing brace (ISO 9899:1990,
/// 6.7.1). Its traces are exactly the function's; what stands in it stands in the function's text, and control comes to each of its
/// blocks. A block without a way on stands for the target of a `break` or a `continue` with nothing round it that it could leave.
pub fn build_body<'a, F: Facts>(
    alloc: Global,
    facts: &F,
    function: Place,
    body: &'a Tree<'a>,
    close: Place,
) -> Result<Graph<'a>, AllocError>
    ensures traces { IfOk result (λ g. HasTraces (graph_in g) (F.known facts.now) (record { place = function; body = node_of body.now; close = close })) }
    ensures sound { IfOk result (λ g. IsSoundGraph (graph_in g).blocks (graph_in g).entry) }
    ensures text { IfOk result (λ g. StandsInText (graph_in g) (F.known facts.now) (record { place = function; body = node_of body.now; close = close })) }
    ensures reached { IfOk result (λ g. AllReached (graph_in g)) }
{
    let mut builder = BodyBuilder::new(alloc);
    let dead = builder
        .blocks
        .silent(DraftEnd::Known(End::Goto(Vec::new(alloc))))?;
    let last = builder.blocks.exit(function, close)?;
    let ahead = Ahead {
        next: last,
        at_break: dead,
        at_continue: dead,
    };
    let mut cases = Vec::new(alloc);
    let entry = builder.statement(facts, function, body, ahead, &mut cases)?;
    let BodyBuilder { blocks, labels } = builder;
    let mut blocks = settle_all(alloc, blocks.drafts, &labels)?;
    join_all(alloc, &mut blocks, entry)?;
    if blocks.len() > u32::MAX as usize {
        return Err(AllocError);
    }
    let straight = straighten(alloc, blocks, entry)?;
    let graph = keep_reached(alloc, &straight)?;
    Ok(graph)
}
