//! Callees that are entered, and those who wait for their ends.

ghost use Rattle.std.specs.Prelude.{◌≡◌, map, false, IfOk};
ghost use Rattle.path_edges.specs.EdgeSteps.Steps.{frame_edge, wait_for, woken_edge};

use crate::edge_steps::copies::{copy_context, copy_tuple};
use crate::edges::{Context, Edge, Waiter};
use least_set::Wait;
use state_tuples::Tuple;
use std::alloc::{AllocError, Global};

// The first edge of a called frame that is entered with a tuple.
fn called_edge(function: u32, block: u32, entry: &Tuple) -> Edge
    ensures { result ≡ frame_edge false function block entry.now }
{
    Edge {
        context: Context {
            function,
            entry: copy_tuple(entry),
        },
        is_root: false,
        block,
        tuple: copy_tuple(entry),
    }
}

/// The first edges of called frames of a function that begins with this block, one for each tuple with which it is entered.
pub fn entered(
    alloc: Global,
    function: u32,
    block: u32,
    entries: &[Tuple],
) -> Result<Vec<Edge>, AllocError>
    ensures { IfOk result (λ list. list.items ≡ map (frame_edge false function block) entries.now) }
{
    let mut edges = Vec::new(alloc);
    for entry in entries {
        edges.push(called_edge(function, block, entry))?;
    }
    Ok(edges)
}

// Who waits for what a callee hands back that is entered with a tuple.
fn wait_for(edge: &Edge, function: u32, behind: u32, entry: &Tuple) -> Wait<Context, Waiter>
    ensures { result ≡ wait_for edge.now function behind entry.now }
{
    Wait {
        on: Context {
            function,
            entry: copy_tuple(entry),
        },
        waiter: Waiter {
            context: copy_context(&edge.context),
            is_root: edge.is_root,
            block: edge.block,
            behind,
            saved: None,
        },
    }
}

/// Those who wait for what a callee hands back, one for each tuple with which it is entered.
pub fn waits_for(
    alloc: Global,
    edge: &Edge,
    function: u32,
    behind: u32,
    entries: &[Tuple],
) -> Result<Vec<Wait<Context, Waiter>>, AllocError>
    ensures { IfOk result (λ list. list.items ≡ map (wait_for edge.now function behind) entries.now) }
{
    let mut waits = Vec::new(alloc);
    for entry in entries {
        waits.push(wait_for(edge, function, behind, entry))?;
    }
    Ok(waits)
}

// Where who waits goes on with a tuple.
fn woken_edge(waiter: &Waiter, tuple: &Tuple) -> Edge
    ensures { result ≡ woken_edge waiter.now tuple.now }
{
    Edge {
        context: copy_context(&waiter.context),
        is_root: waiter.is_root,
        block: waiter.behind,
        tuple: copy_tuple(tuple),
    }
}

/// Where who waits goes on, one edge for each tuple behind the call.
pub fn woken(alloc: Global, waiter: &Waiter, tuples: &[Tuple]) -> Result<Vec<Edge>, AllocError>
    ensures { IfOk result (λ list. list.items ≡ map (woken_edge waiter.now) tuples.now) }
{
    let mut edges = Vec::new(alloc);
    for tuple in tuples {
        edges.push(woken_edge(waiter, tuple))?;
    }
    Ok(edges)
}
