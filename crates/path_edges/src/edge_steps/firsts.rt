//! First edges of roots.

ghost use Rattle.std.specs.Prelude.{◌≡◌, ◌++◌, map, IfOk};
ghost use Rattle.path_edges.specs.EdgeSteps.Steps.{first_edge, first_edges, start_tuple, unknown_at};

use crate::edge_steps::copies::copy_tuple;
use crate::edges::{Context, Edge};
use metal_tree::START;
use objects::{Object, copy};
use state_tuples::Tuple;
use std::alloc::{AllocError, Global};

// The first edge of a root's own frame that begins with a tuple.
fn first_edge(function: u32, block: u32, entry: Tuple) -> Edge
    ensures { result ≡ first_edge function block entry }
{
    let tuple = copy_tuple(&entry);
    Edge {
        context: Context { function, entry },
        is_root: true,
        block,
        tuple,
    }
}

// The tuple of the first global state without an object.
fn start() -> Tuple
    ensures { result ≡ start_tuple }
{
    Tuple {
        global: START,
        object: None,
        state: None,
    }
}

// The tuple of the first global state with an object, which is unknown.
fn unknown(object: &Object) -> Tuple
    ensures { result ≡ unknown_at object.now }
{
    Tuple {
        global: START,
        object: Some(copy(object)),
        state: None,
    }
}

// Adds those of a root's own frame with each object that is followed.
fn add_unknown(
    edges: &mut Vec<Edge>,
    function: u32,
    block: u32,
    objects: &[Object],
) -> Result<(), AllocError>
    ensures { IfOk result (λ _. edges.new.items ≡ edges.old.items ++ map (λ o. first_edge function block (unknown_at o)) objects.now) }
{
    for object in objects {
        edges.push(first_edge(function, block, unknown(object)))?;
    }
    Ok(())
}

/// The first edges of a root's own frame: without an object, and with each that is followed.
pub fn first_edges(
    alloc: Global,
    function: u32,
    block: u32,
    objects: &[Object],
) -> Result<Vec<Edge>, AllocError>
    ensures { IfOk result (λ list. list.items ≡ first_edges function block objects.now) }
{
    let mut edges = Vec::new(alloc);
    edges.push(first_edge(function, block, start()))?;
    add_unknown(&mut edges, function, block, objects)?;
    Ok(edges)
}
