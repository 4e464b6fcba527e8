//! A block that frees an object and then uses it.

use block_summary::{BlockSummary, Entered};
use mx_base::Steps;
use row_flows::{
    Applied, BlockRows, EventRow, Firing, NumberedSource, NumberedTarget, NumberedTuple,
};
use std::alloc::{AllocError, Global};
use std::test::Fail;

/// Entries of blocks.
#[derive(Drop)]
struct Entries;

/// The row of an event at which this alternative applies.
fn row(alloc: Global, applied: Applied) -> Result<EventRow, AllocError> {
    let mut list = Vec::new(alloc);
    list.push(applied)?;
    Ok(EventRow {
        touched: Vec::new(alloc),
        applied: list,
        is_exit: false,
    })
}

/// The rows of `free(p); *p;`, where `p` has the number 1, under `start: { free(v) } ==> v.freed` and `v.freed: { *v } ==> v.stop` with an
/// action.
fn freed_and_used(alloc: Global) -> Result<BlockRows, AllocError> {
    let frees = Applied {
        rule: 1,
        alternative: 0,
        source: NumberedSource::Global(0),
        target: NumberedTarget::Object(1),
        object: 1,
        has_action: false,
    };
    let uses = Applied {
        rule: 2,
        alternative: 0,
        source: NumberedSource::Object(1),
        target: NumberedTarget::Object(0),
        object: 1,
        has_action: true,
    };
    let mut rows = Vec::new(alloc);
    rows.push(row(alloc, frees)?)?;
    rows.push(row(alloc, uses)?)?;
    BlockRows::new(alloc, rows)
}

/// The block, entered in a root's own frame in `start`, with this object unknown; with none where that is 0.
fn entered(object: u32) -> Entered {
    Entered {
        function: 0,
        block: 0,
        tuple: NumberedTuple {
            global: 0,
            state: 0,
            object,
        },
        is_root: true,
    }
}

/// The use, by the object.
fn used() -> Firing {
    Firing {
        event: 1,
        object: 1,
        place: 0,
    }
}

#[test]
fn unknown_object_is_reported_and_unknown_again(rt: HostRuntime) -> Result<(), Fail> {
    let block = freed_and_used(rt.alloc())?;
    let mut summary = BlockSummary::new(rt.alloc());
    let mut steps: Steps<Entries> = Steps::new();
    let exits = summary.enter(rt.alloc(), &block, &[true], entered(1), &mut steps)?;
    let tuples = exits.tuples_of(rt.alloc(), entered(1).tuple)?;
    assert_eq!(rt; tuples.len(), 1);
    assert_eq!(rt; tuples.get(0), Some(&entered(1).tuple));
    assert_eq!(rt; exits.firings.len(), 1);
    assert_eq!(rt; exits.firings.get(0), Some(&used()));
    Ok(())
}

#[test]
fn no_object_is_left_alone(rt: HostRuntime) -> Result<(), Fail> {
    let block = freed_and_used(rt.alloc())?;
    let mut summary = BlockSummary::new(rt.alloc());
    let mut steps: Steps<Entries> = Steps::new();
    let exits = summary.enter(rt.alloc(), &block, &[true], entered(0), &mut steps)?;
    let tuples = exits.tuples_of(rt.alloc(), entered(0).tuple)?;
    assert_eq!(rt; tuples.len(), 1);
    assert_eq!(rt; tuples.get(0), Some(&entered(0).tuple));
    assert_eq!(rt; exits.firings.len(), 0);
    Ok(())
}

/// What a call of `enter` leads to for an unknown object: the tuples at the end of the block, and the alternatives that are taken.
fn entered_once(
    alloc: Global,
    summary: &mut BlockSummary,
    block: &BlockRows,
    steps: &mut Steps<Entries>,
) -> Result<(Vec<NumberedTuple>, Vec<Firing>), AllocError> {
    let exits = summary.enter(alloc, block, &[true], entered(1), steps)?;
    let tuples = exits.tuples_of(alloc, entered(1).tuple)?;
    let mut firings = Vec::new(alloc);
    firings.extend_from_slice(exits.firings.as_slice())?;
    Ok((tuples, firings))
}

#[test]
fn second_call_is_lent_what_the_first_kept(rt: HostRuntime) -> Result<(), Fail> {
    let block = freed_and_used(rt.alloc())?;
    let mut summary = BlockSummary::new(rt.alloc());
    let mut steps: Steps<Entries> = Steps::new();
    assert!(rt; summary.held(&entered(1)).is_none());
    let first = entered_once(rt.alloc(), &mut summary, &block, &mut steps)?;
    let second = entered_once(rt.alloc(), &mut summary, &block, &mut steps)?;
    assert!(rt; first.0.as_slice() == second.0.as_slice());
    assert!(rt; first.1.as_slice() == second.1.as_slice());
    assert_eq!(rt; steps.count(), 2);
    assert!(rt; summary.held(&entered(1)).is_some());
    if let Some(exits) = summary.held(&entered(1)) {
        assert!(rt; exits.firings.as_slice() == first.1.as_slice());
        assert_eq!(rt; exits.firings.get(0), Some(&used()));
    }
    assert!(rt; summary.held(&entered(0)).is_none());
    Ok(())
}
