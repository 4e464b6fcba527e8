//! The moves and the followed calls of a program, out of the rows of its functions.

ghost use Rattle.std.specs.Prelude.{◌≤◌, map, IfOk};
ghost use Rattle.known_objects.specs.Listed.{call_in, AreNumbered, IsMoveAt, IsMoveIn, IsMoveOf, IsCallFrom, IsCallOf, SomeIsMoveIn, SomeIsCallIn};
ghost use Rattle.least_set.specs.Logs.{Adds, IsExactly, SomeGives};

use crate::changes::{Move, Numbered};
use flow_graph::Event;
use relevant::{FollowedCall, FunctionRow, row_at};
use std::alloc::{AllocError, Global};
use synonyms_kills::is_move;
use typed_unit::TypedUnit;

// Puts an event last, if it writes over anything.
fn add_move<'s, 'a>(
    moves: &mut Vec<Move<'s, 'a>>,
    function: u32,
    unit: &'s TypedUnit<'a>,
    event: &Event<'a>,
    depth: u8,
) -> Result<(), AllocError>
    requires { depth ≤ 8 }
    ensures { IfOk result (λ _. Adds (IsMoveAt depth function unit.entry event.now) moves.old.items moves.new.items) }
{
    if !is_move(event, unit, depth) {
        return Ok(());
    }
    moves.push(Move {
        function,
        event: *event,
        unit,
    })?;
    Ok(())
}

// Puts the events of a function last that write over anything.
fn add_moves_of<'s, 'a>(
    moves: &mut Vec<Move<'s, 'a>>,
    function: u32,
    row: &FunctionRow<'s, 'a>,
    depth: u8,
) -> Result<(), AllocError>
    requires { depth ≤ 8 }
    ensures { IfOk result (λ _. Adds (IsMoveIn depth function row.now) moves.old.items moves.new.items) }
{
    for event in row.events.as_slice() {
        add_move(moves, function, row.unit, event, depth)?;
    }
    Ok(())
}

// The same of the function with a number, if there is one.
fn add_moves_at<'s, 'a>(
    moves: &mut Vec<Move<'s, 'a>>,
    rows: &[FunctionRow<'s, 'a>],
    function: u32,
    depth: u8,
) -> Result<(), AllocError>
    requires { depth ≤ 8 }
    ensures { IfOk result (λ _. Adds (IsMoveOf depth rows.now function) moves.old.items moves.new.items) }
{
    match row_at(rows, function) {
        Some(row) => add_moves_of(moves, function, row, depth),
        None => Ok(()),
    }
}

/// The events of the first of these functions, so many, that write over anything.
pub(crate) fn moves_of<'s, 'a>(
    alloc: Global,
    rows: &[FunctionRow<'s, 'a>],
    count: u32,
    depth: u8,
) -> Result<Vec<Move<'s, 'a>>, AllocError>
    requires { depth ≤ 8 }
    ensures { IfOk result (λ moves. IsExactly moves.items (SomeIsMoveIn depth rows.now count)) }
{
    let mut moves = Vec::new(alloc);
    for function in 0..count {
        add_moves_at(&mut moves, rows, function, depth)?;
    }
    Ok(moves)
}

// Puts a call last, with its number, if it comes from this function.
fn add_call<'s, 'a>(
    calls: &mut Vec<Numbered<'s, 'a>>,
    function: u32,
    call: &FollowedCall<'s, 'a>,
) -> Result<(), AllocError>
    requires { AreNumbered calls.old.items }
    ensures calls { IfOk result (λ _. Adds (IsCallFrom function call.now) (map call_in calls.old.items) (map call_in calls.new.items)) }
    ensures numbered { IfOk result (λ _. AreNumbered calls.new.items) }
{
    if call.caller != function {
        return Ok(());
    }
    let number = calls.len();
    calls.push(Numbered {
        number,
        call: *call,
    })?;
    Ok(())
}

// Puts the calls last that come from this function.
fn add_calls_of<'s, 'a>(
    calls: &mut Vec<Numbered<'s, 'a>>,
    function: u32,
    row: &FunctionRow<'s, 'a>,
) -> Result<(), AllocError>
    requires { AreNumbered calls.old.items }
    ensures calls { IfOk result (λ _. Adds (SomeGives (IsCallFrom function) row.now.calls.items) (map call_in calls.old.items) (map call_in calls.new.items)) }
    ensures numbered { IfOk result (λ _. AreNumbered calls.new.items) }
{
    for call in row.calls.as_slice() {
        add_call(calls, function, call)?;
    }
    Ok(())
}

// The same of the function with a number, if there is one.
fn add_calls_at<'s, 'a>(
    calls: &mut Vec<Numbered<'s, 'a>>,
    rows: &[FunctionRow<'s, 'a>],
    function: u32,
) -> Result<(), AllocError>
    requires { AreNumbered calls.old.items }
    ensures calls { IfOk result (λ _. Adds (IsCallOf rows.now function) (map call_in calls.old.items) (map call_in calls.new.items)) }
    ensures numbered { IfOk result (λ _. AreNumbered calls.new.items) }
{
    match row_at(rows, function) {
        Some(row) => add_calls_of(calls, function, row),
        None => Ok(()),
    }
}

/// The followed calls from the first of these functions, so many, each with its place in the list as its number.
pub(crate) fn calls_of<'s, 'a>(
    alloc: Global,
    rows: &[FunctionRow<'s, 'a>],
    count: u32,
) -> Result<Vec<Numbered<'s, 'a>>, AllocError>
    ensures calls { IfOk result (λ calls. IsExactly (map call_in calls.items) (SomeIsCallIn rows.now count)) }
    ensures numbered { IfOk result (λ calls. AreNumbered calls.items) }
{
    let mut calls = Vec::new(alloc);
    for function in 0..count {
        add_calls_at(&mut calls, rows, function)?;
    }
    Ok(calls)
}
