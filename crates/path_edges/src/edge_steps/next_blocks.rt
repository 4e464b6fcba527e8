//! From one block on to others.

ghost use Rattle.std.specs.Prelude.{◌≡◌, ◌++◌, map, flat_map, IfOk};
ghost use Rattle.path_edges.specs.EdgeSteps.Steps.{edge_at};

use crate::edge_steps::copies::{copy_context, copy_tuple};
use crate::edges::Edge;
use state_tuples::Tuple;
use std::alloc::{AllocError, Global};

// An edge of the same frame at the head of another block.
fn edge_at(edge: &Edge, block: u32, tuple: &Tuple) -> Edge
    ensures { result ≡ edge_at edge.now block tuple.now }
{
    Edge {
        context: copy_context(&edge.context),
        is_root: edge.is_root,
        block,
        tuple: copy_tuple(tuple),
    }
}

// Adds those of a block, one for each tuple.
fn add_edges(
    edges: &mut Vec<Edge>,
    edge: &Edge,
    block: u32,
    tuples: &[Tuple],
) -> Result<(), AllocError>
    ensures { IfOk result (λ _. edges.new.items ≡ edges.old.items ++ map (edge_at edge.now block) tuples.now) }
{
    for tuple in tuples {
        edges.push(edge_at(edge, block, tuple))?;
    }
    Ok(())
}

/// The edges of the same frame at the heads of other blocks, in each block one for each tuple.
pub fn onward(
    alloc: Global,
    edge: &Edge,
    blocks: &[u32],
    tuples: &[Tuple],
) -> Result<Vec<Edge>, AllocError>
    ensures { IfOk result (λ list. list.items ≡ flat_map (λ b. map (edge_at edge.now b) tuples.now) blocks.now) }
{
    let mut edges = Vec::new(alloc);
    for block in blocks {
        add_edges(&mut edges, edge, *block, tuples)?;
    }
    Ok(edges)
}
