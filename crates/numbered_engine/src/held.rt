//! Contexts that are held: what an earlier run found out of them.

ghost use Rattle.std.specs.Prelude.{◌≡◌, ◌++◌, [], cond, option_copied, IfOk};
ghost use Rattle.numbered_engine.specs.Held.{held_at, is_first, passed_by};
ghost use Rattle.numbered_engine.specs.Waiting.{ended};

use crate::edges::{NumberedContext, NumberedEdge};
use crate::following::first;
use crate::program::{ProgramRows, block_at};
use crate::waiting::ended;
use indexmap::IndexMap;
use std::alloc::{AllocError, Global};

/// What is known of a context whose edges aren't worked off again.
#[derive(Drop)]
pub struct HeldContext {
    /// Its edges at blocks that end the function.
    pub ends: Vec<NumberedEdge>,
    /// The first edges of the frames that its calls begin.
    pub calls: Vec<NumberedEdge>,
}

/// What is held of a context, if anything is.
pub(crate) fn held_at(
    held: &IndexMap<NumberedContext, HeldContext>,
    context: NumberedContext,
) -> Option<&HeldContext>
    ensures { option_copied result ≡ held_at held.now.entries context }
{
    if held.is_empty() {
        return None;
    }
    held.get(&context)
}

// Whether the edge is the first of its frame.
fn is_first(edge: &NumberedEdge) -> bool
    ensures { result ≡ is_first edge.now }
{
    *edge == first(edge.context.function, edge.context.entry)
}

/// What follows from an edge of a held context: from its first edge those at its ends, and those with which its calls begin.
pub(crate) fn passed_by(
    alloc: Global,
    edge: &NumberedEdge,
    context: &HeldContext,
) -> Result<Vec<NumberedEdge>, AllocError>
    ensures { IfOk result (λ list. list.items ≡ passed_by edge.now context.now) }
{
    if !is_first(edge) {
        return Ok(Vec::new(alloc));
    }
    let mut list = context.ends.as_slice().to_vec(alloc)?;
    let mut calls = context.calls.as_slice().to_vec(alloc)?;
    list.append(&mut calls)?;
    Ok(list)
}

/// The context of which an edge is an end.
pub(crate) fn ended_at(program: &ProgramRows, edge: &NumberedEdge) -> Option<NumberedContext>
    ensures { result ≡ ended program.now edge.now }
{
    match block_at(program, edge.context.function, edge.block) {
        Some(block) => ended(edge, &block.ending),
        None => None,
    }
}
