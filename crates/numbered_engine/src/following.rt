//! What follows from an edge alone.

ghost use Rattle.std.specs.Prelude.{◌≡◌, ◌++◌, ◌∷◌, [], cond, nat_eq, flat_map, map, IfOk};
ghost use Rattle.numbered_engine.specs.Following.{at, first, led_from, passed};

use crate::edges::{NumberedContext, NumberedEdge};
use crate::program::{Call, Ending};
use row_flows::{NumberedTuple, Touched, add_given};
use std::alloc::{AllocError, Global};

// The tuple, if it has no object.
fn if_bare(alloc: Global, tuple: NumberedTuple) -> Result<Vec<NumberedTuple>, AllocError>
    ensures { IfOk result (λ list. list.items ≡ cond (nat_eq tuple.object 0) (tuple ∷ []) []) }
{
    let mut list = Vec::new(alloc);
    if tuple.object == 0 {
        list.push(tuple)?;
    }
    Ok(list)
}

/// What passes between a caller and its callee.
pub(crate) fn passed(
    alloc: Global,
    rows: &[Touched],
    tuple: NumberedTuple,
) -> Result<Vec<NumberedTuple>, AllocError>
    ensures { IfOk result (λ list. list.items ≡ passed rows.now tuple) }
{
    let mut list = if_bare(alloc, tuple)?;
    add_given(&mut list, tuple, rows)?;
    Ok(list)
}

/// The edge of a frame at a block.
pub(crate) fn at(context: NumberedContext, tuple: NumberedTuple, block: u32) -> NumberedEdge
    ensures { result ≡ at context tuple block }
{
    NumberedEdge {
        context,
        block,
        tuple,
    }
}

/// The first edge of a frame.
pub(crate) fn first(function: u32, tuple: NumberedTuple) -> NumberedEdge
    ensures { result ≡ first function tuple }
{
    at(
        NumberedContext {
            function,
            entry: tuple,
        },
        tuple,
        0,
    )
}

// Adds the edges at these blocks.
fn add_next(
    list: &mut Vec<NumberedEdge>,
    context: NumberedContext,
    tuple: NumberedTuple,
    blocks: &[u32],
) -> Result<(), AllocError>
    ensures { IfOk result (λ _. list.new.items ≡ list.old.items ++ map (at context tuple) blocks.now) }
{
    for block in blocks {
        list.push(at(context, tuple, *block))?;
    }
    Ok(())
}

// Adds the first edges of a function's frames that are entered with these tuples.
fn add_first(
    list: &mut Vec<NumberedEdge>,
    function: u32,
    tuples: &[NumberedTuple],
) -> Result<(), AllocError>
    ensures { IfOk result (λ _. list.new.items ≡ list.old.items ++ map (first function) tuples.now) }
{
    for tuple in tuples {
        list.push(first(function, *tuple))?;
    }
    Ok(())
}

// Adds those with which a callee begins.
fn add_entered(
    list: &mut Vec<NumberedEdge>,
    alloc: Global,
    call: &Call,
    tuple: NumberedTuple,
) -> Result<(), AllocError>
    ensures { IfOk result (λ _. list.new.items ≡ list.old.items ++ map (first call.now.callee) (passed call.now.entered.items tuple)) }
{
    let entries = passed(alloc, call.entered.as_slice(), tuple)?;
    add_first(list, call.callee, entries.as_slice())
}

// Adds what follows from a tuple at the end of a block.
fn add_led(
    list: &mut Vec<NumberedEdge>,
    alloc: Global,
    context: NumberedContext,
    ending: &Ending,
    tuple: NumberedTuple,
) -> Result<(), AllocError>
    ensures { IfOk result (λ _. list.new.items ≡ list.old.items ++ led_from context ending.now tuple) }
{
    match ending {
        Ending::Next(blocks) => add_next(list, context, tuple, blocks.as_slice()),
        Ending::Calls(call) => add_entered(list, alloc, call, tuple),
        Ending::Exit => Ok(()),
    }
}

/// What follows from the tuples at the end of a block.
pub(crate) fn led(
    alloc: Global,
    context: NumberedContext,
    ending: &Ending,
    tuples: &[NumberedTuple],
) -> Result<Vec<NumberedEdge>, AllocError>
    ensures { IfOk result (λ list. list.items ≡ flat_map (led_from context ending.now) tuples.now) }
{
    let mut list = Vec::new(alloc);
    for tuple in tuples {
        add_led(&mut list, alloc, context, ending, *tuple)?;
    }
    Ok(list)
}
