//! What edges show.

ghost use Rattle.std.specs.Prelude.{◌≡◌, Contains, IfOk, Some};
ghost use Rattle.block_summary.specs.Kept.{IsRight};
ghost use Rattle.least_set.specs.Logs.{IsExactly};
ghost use Rattle.numbered_engine.specs.Program.{block_of, function_at};
ghost use Rattle.numbered_engine.specs.Showing.{shown_at, shown_in};
ghost use Rattle.numbered_engine.specs.Tables.{own_in, rows_in};

use crate::edges::NumberedEdge;
use crate::engine::{NumberedEngine, is_own_frame};
use crate::program::{Block, FunctionRows, ProgramRows, block_of, function_at};
use block_summary::{BlockSummary, Entered};
use row_flows::{Firing, cross};
use std::alloc::{AllocError, Global};

// Those of an edge's block, worked out.
fn worked_out(
    alloc: Global,
    function: &FunctionRows,
    block: &Block,
    edge: &NumberedEdge,
) -> Result<Vec<Firing>, AllocError>
    ensures { IfOk result (λ list. IsExactly list.items (Contains (shown_in edge.now function.now block.now))) }
{
    let is_root = is_own_frame(function, edge.context.entry);
    let own = function.own.as_slice();
    let crossed = cross(alloc, block.rows.rows.as_slice(), is_root, own, edge.tuple)?;
    Ok(crossed.firings)
}

// Those of an edge's block: what the summary holds, where it was entered so.
fn firings_in(
    summary: &BlockSummary,
    alloc: Global,
    program: &ProgramRows,
    function: &FunctionRows,
    block: &Block,
    edge: &NumberedEdge,
) -> Result<Vec<Firing>, AllocError>
    requires function { function_at program.now edge.now.context.function ≡ Some function.now }
    requires block { block_of function.now edge.now.block ≡ Some block.now }
    requires known { ∥ IsRight (rows_in program.now) (own_in program.now) summary.now ∥₁ }
    ensures { IfOk result (λ list. IsExactly list.items (Contains (shown_in edge.now function.now block.now))) }
{
    let entered = Entered {
        function: edge.context.function,
        block: edge.block,
        tuple: edge.tuple,
        is_root: is_own_frame(function, edge.context.entry),
    };
    match summary.held(&entered) {
        Some(exits) => exits.firings.as_slice().to_vec(alloc),
        None => worked_out(alloc, function, block, edge),
    }
}

/// The alternatives of rules with an action that are taken at the block of an edge.
pub fn firings_at<L>(
    alloc: Global,
    engine: &NumberedEngine<L>,
    edge: &NumberedEdge,
) -> Result<Vec<Firing>, AllocError>
    ensures { IfOk result (λ list. IsExactly list.items (Contains (shown_at engine.now.program.now edge.now))) }
{
    let Some(function) = function_at(engine.program, edge.context.function) else {
        return Ok(Vec::new(alloc));
    };
    let Some(block) = block_of(function, edge.block) else {
        return Ok(Vec::new(alloc));
    };
    if block.rows.leaves_calm(edge.tuple.object) {
        return Ok(Vec::new(alloc));
    }
    firings_in(
        &engine.summary,
        alloc,
        engine.program,
        function,
        block,
        edge,
    )
}
