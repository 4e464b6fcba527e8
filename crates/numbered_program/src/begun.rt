//! The edges with which roots begin.

ghost use Rattle.std.specs.Prelude.{◌≡◌, IfOk, length};
ghost use Rattle.least_set.specs.Logs.{IsExactly, SomeGives};
ghost use Rattle.numbered_program.specs.Begun.{BeginsIn, BeginsWith, begun_at};

use crate::numbered_tuples::Numbering;
use crate::numbers::Numbers;
use call_graph::FnId;
use function_tables::item;
use numbered_engine::{NumberedContext, NumberedEdge};
use row_flows::NumberedTuple;
use std::alloc::{AllocError, Global};

// The edge with which a root begins with the object with a number, unknown; with none, where it is 0.
fn begun_at(function: u32, object: u32) -> NumberedEdge
    ensures { result ≡ begun_at function object }
{
    let tuple = NumberedTuple {
        global: 0,
        state: 0,
        object,
    };
    NumberedEdge {
        context: NumberedContext {
            function,
            entry: tuple,
        },
        block: 0,
        tuple,
    }
}

// Those with which a root begins that has these numbers.
fn begun_with(
    alloc: Global,
    function: u32,
    numbering: &Numbering,
) -> Result<Vec<NumberedEdge>, AllocError>
    ensures { IfOk result (λ list. IsExactly list.items (BeginsWith function (length numbering.now.objects.now.keys))) }
{
    let mut edges = Vec::new(alloc);
    let first = begun_at(function, 0);
    edges.push(first)?;
    for object in 0..numbering.count() {
        let edge = begun_at(function, object + 1);
        edges.push(edge)?;
    }
    Ok(edges)
}

// Those of the root with a number.
fn begun_in(
    alloc: Global,
    numbers: &[Numbers],
    function: u32,
) -> Result<Vec<NumberedEdge>, AllocError>
    ensures { IfOk result (λ list. IsExactly list.items (BeginsIn numbers.now function)) }
{
    match item(numbers, function) {
        Some(own) => begun_with(alloc, function, &own.numbering),
        None => Ok(Vec::new(alloc)),
    }
}

/// The edges with which paths begin, where these are the roots.
pub(crate) fn all_begun(
    alloc: Global,
    numbers: &[Numbers],
    roots: &[FnId],
) -> Result<Vec<NumberedEdge>, AllocError>
    ensures { IfOk result (λ list. IsExactly list.items (SomeGives (λ f. BeginsIn numbers.now f.number) roots.now)) }
{
    let mut edges = Vec::new(alloc);
    for root in roots {
        let mut found = begun_in(alloc, numbers, root.number)?;
        edges.append(&mut found)?;
    }
    Ok(edges)
}
