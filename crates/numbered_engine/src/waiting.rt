//! Who waits at a call, where a frame ends, and what a waiter and an end give together.

ghost use Rattle.std.specs.Prelude.{◌≡◌, ◌++◌, ◌∷◌, [], cond, nat_eq, flat_map, map, IfOk};
ghost use Rattle.numbered_engine.specs.Waiting.{ended_in, restored, tuples_behind, waiter, waiting_at, waits_for, waits_from, waits_with, woken_at};

use crate::edges::{NumberedContext, NumberedEdge, NumberedWaiter};
use crate::following::{at, passed};
use crate::program::{Call, Ending};
use least_set::Wait;
use row_flows::{NumberedTuple, bare, is_own};
use std::alloc::{AllocError, Global};

// The frame of an edge, which waits at the call in which its block ends.
fn waiter(edge: &NumberedEdge, saved: NumberedTuple) -> NumberedWaiter
    ensures { result ≡ waiter edge.now saved }
{
    NumberedWaiter {
        context: edge.context,
        block: edge.block,
        saved,
    }
}

// Who waits for what the callee hands back that is entered so.
fn waits_for(
    edge: &NumberedEdge,
    call: &Call,
    tuple: NumberedTuple,
) -> Wait<NumberedContext, NumberedWaiter>
    ensures { result ≡ waits_for edge.now call.now tuple }
{
    Wait {
        on: NumberedContext {
            function: call.callee,
            entry: tuple,
        },
        waiter: waiter(edge, bare(0)),
    }
}

// Adds who waits for what is handed back, for each tuple with which the callee is entered.
fn add_for(
    list: &mut Vec<Wait<NumberedContext, NumberedWaiter>>,
    edge: &NumberedEdge,
    call: &Call,
    entries: &[NumberedTuple],
) -> Result<(), AllocError>
    ensures { IfOk result (λ _. list.new.items ≡ list.old.items ++ map (waits_for edge.now call.now) entries.now) }
{
    for tuple in entries {
        list.push(waits_for(edge, call, *tuple))?;
    }
    Ok(())
}

// Adds who waits with an object that is saved.
fn add_with(
    list: &mut Vec<Wait<NumberedContext, NumberedWaiter>>,
    edge: &NumberedEdge,
    call: &Call,
    tuple: NumberedTuple,
) -> Result<(), AllocError>
    ensures { IfOk result (λ _. list.new.items ≡ list.old.items ++ waits_with edge.now call.now tuple) }
{
    if is_own(call.saved.as_slice(), tuple.object) {
        list.push(Wait {
            on: NumberedContext {
                function: call.callee,
                entry: bare(tuple.global),
            },
            waiter: waiter(edge, tuple),
        })?;
    }
    Ok(())
}

// Adds who waits at a call.
fn add_from(
    list: &mut Vec<Wait<NumberedContext, NumberedWaiter>>,
    alloc: Global,
    edge: &NumberedEdge,
    call: &Call,
    tuple: NumberedTuple,
) -> Result<(), AllocError>
    ensures { IfOk result (λ _. list.new.items ≡ list.old.items ++ waits_from edge.now call.now tuple) }
{
    let entries = passed(alloc, call.entered.as_slice(), tuple)?;
    add_for(list, edge, call, entries.as_slice())?;
    add_with(list, edge, call, tuple)
}

// Adds who waits for a tuple at the end of a block.
fn add_at(
    list: &mut Vec<Wait<NumberedContext, NumberedWaiter>>,
    alloc: Global,
    edge: &NumberedEdge,
    ending: &Ending,
    tuple: NumberedTuple,
) -> Result<(), AllocError>
    ensures { IfOk result (λ _. list.new.items ≡ list.old.items ++ waiting_at edge.now ending.now tuple) }
{
    match ending {
        Ending::Next(_) => Ok(()),
        Ending::Calls(call) => add_from(list, alloc, edge, call, tuple),
        Ending::Exit => Ok(()),
    }
}

/// Who waits for the tuples at the end of a block.
pub(crate) fn waiting(
    alloc: Global,
    edge: &NumberedEdge,
    ending: &Ending,
    tuples: &[NumberedTuple],
) -> Result<Vec<Wait<NumberedContext, NumberedWaiter>>, AllocError>
    ensures { IfOk result (λ list. list.items ≡ flat_map (waiting_at edge.now ending.now) tuples.now) }
{
    let mut list = Vec::new(alloc);
    for tuple in tuples {
        add_at(&mut list, alloc, edge, ending, *tuple)?;
    }
    Ok(list)
}

/// The context of which an edge is an end.
pub(crate) fn ended(edge: &NumberedEdge, ending: &Ending) -> Option<NumberedContext>
    ensures { result ≡ ended_in edge.now ending.now }
{
    match ending {
        Ending::Next(_) => None,
        Ending::Calls(_) => None,
        Ending::Exit => Some(edge.context),
    }
}

// The saved object's state, in the global state of the callee's end.
fn restored(saved: NumberedTuple, end: NumberedTuple) -> NumberedTuple
    ensures { result ≡ restored saved end }
{
    NumberedTuple {
        global: end.global,
        state: saved.state,
        object: saved.object,
    }
}

// What was saved, at an end without object.
fn if_ended_bare(
    alloc: Global,
    saved: NumberedTuple,
    end: NumberedTuple,
) -> Result<Vec<NumberedTuple>, AllocError>
    ensures { IfOk result (λ list. list.items ≡ cond (nat_eq end.object 0) (restored saved end ∷ []) []) }
{
    let mut list = Vec::new(alloc);
    if end.object == 0 {
        list.push(restored(saved, end))?;
    }
    Ok(list)
}

// The tuples behind the call.
fn tuples_behind(
    alloc: Global,
    call: &Call,
    saved: NumberedTuple,
    end: NumberedTuple,
) -> Result<Vec<NumberedTuple>, AllocError>
    ensures { IfOk result (λ list. list.items ≡ tuples_behind call.now saved end) }
{
    if saved.object == 0 {
        return passed(alloc, call.handed.as_slice(), end);
    }
    if_ended_bare(alloc, saved, end)
}

/// What a waiter at a call and an end give.
pub(crate) fn woken(
    alloc: Global,
    waiter: &NumberedWaiter,
    end: NumberedTuple,
    call: &Call,
) -> Result<Vec<NumberedEdge>, AllocError>
    ensures { IfOk result (λ list. list.items ≡ woken_at waiter.now end call.now) }
{
    let tuples = tuples_behind(alloc, call, waiter.saved, end)?;
    let mut list = Vec::new(alloc);
    for tuple in tuples.as_slice() {
        list.push(at(waiter.context, *tuple, call.behind))?;
    }
    Ok(list)
}
