//! Runs of the engine over numbers that go on where some contexts are held.

use indexmap::IndexMap;
use mx_base::Steps;
use numbered_engine::{
    Block, Call, EdgeLog, Ending, FunctionRows, HeldContext, NumberedContext, NumberedEdge,
    NumberedEngine, ProgramRows, resume, tabulate,
};
use row_flows::{Applied, BlockRows, EventRow, NumberedSource, NumberedTarget, NumberedTuple};
use std::alloc::{AllocError, Global};
use std::test::Fail;

/// Edges.
#[derive(Drop)]
struct Entries;

/// Without an object, in this global state.
fn bare(global: u16) -> NumberedTuple {
    NumberedTuple {
        global,
        state: 0,
        object: 0,
    }
}

/// The context of the function with this number that is entered in `start`.
fn context(function: u32) -> NumberedContext {
    NumberedContext {
        function,
        entry: bare(0),
    }
}

/// In the frame of that, the edge at a block in a global state.
fn edge(function: u32, block: u32, global: u16) -> NumberedEdge {
    NumberedEdge {
        context: context(function),
        block,
        tuple: bare(global),
    }
}

/// A block without events.
fn quiet(alloc: Global, ending: Ending) -> Result<Block, AllocError> {
    Ok(Block {
        rows: BlockRows::new(alloc, Vec::new(alloc))?,
        ending,
    })
}

/// A block in which `start` becomes the global state 1.
fn switching(alloc: Global, ending: Ending) -> Result<Block, AllocError> {
    let mut applied = Vec::new(alloc);
    applied.push(Applied {
        rule: 1,
        alternative: 0,
        source: NumberedSource::Global(0),
        target: NumberedTarget::Global(1),
        object: 0,
        has_action: false,
    })?;
    let mut rows = Vec::new(alloc);
    rows.push(EventRow {
        touched: Vec::new(alloc),
        applied,
        is_exit: false,
    })?;
    Ok(Block {
        rows: BlockRows::new(alloc, rows)?,
        ending,
    })
}

/// The ending that leads to one block.
fn next(alloc: Global, block: u32) -> Result<Ending, AllocError> {
    let mut blocks = Vec::new(alloc);
    blocks.push(block)?;
    Ok(Ending::Next(blocks))
}

/// The ending in a call, behind which block 1 follows.
fn call(alloc: Global, callee: u32) -> Ending {
    Ending::Calls(Call {
        callee,
        behind: 1,
        entered: Vec::new(alloc),
        handed: Vec::new(alloc),
        saved: Vec::new(alloc),
    })
}

/// A function of these blocks, in which no object is followed.
fn function(alloc: Global, is_root: bool, blocks: Vec<Block>) -> FunctionRows {
    FunctionRows {
        blocks,
        own: Vec::new(alloc),
        is_root,
    }
}

/// `main` (0) calls `f` (1), which calls `g` (2), in which the global state changes. Behind the call `f` has one more block before its end.
fn program(alloc: Global) -> Result<ProgramRows, AllocError> {
    let mut main = Vec::new(alloc);
    main.push(quiet(alloc, call(alloc, 1))?)?;
    main.push(quiet(alloc, Ending::Exit)?)?;
    let mut f = Vec::new(alloc);
    f.push(quiet(alloc, call(alloc, 2))?)?;
    f.push(quiet(alloc, next(alloc, 2)?)?)?;
    f.push(quiet(alloc, Ending::Exit)?)?;
    let mut g = Vec::new(alloc);
    g.push(switching(alloc, next(alloc, 1)?)?)?;
    g.push(quiet(alloc, Ending::Exit)?)?;
    let mut functions = Vec::new(alloc);
    functions.push(function(alloc, true, main))?;
    functions.push(function(alloc, false, f))?;
    functions.push(function(alloc, false, g))?;
    let mut begun = Vec::new(alloc);
    begun.push(edge(0, 0, 0))?;
    Ok(ProgramRows { functions, begun })
}

/// What a run finds of `f`: its end in the state 1, and that it calls `g` in `start`.
fn held_of_f(alloc: Global) -> Result<HeldContext, AllocError> {
    let mut ends = Vec::new(alloc);
    ends.push(edge(1, 2, 1))?;
    let mut calls = Vec::new(alloc);
    calls.push(edge(2, 0, 0))?;
    Ok(HeldContext { ends, calls })
}

/// And of `g`.
fn held_of_g(alloc: Global) -> Result<HeldContext, AllocError> {
    let mut ends = Vec::new(alloc);
    ends.push(edge(2, 1, 1))?;
    let calls = Vec::new(alloc);
    Ok(HeldContext { ends, calls })
}

/// The edges of a run that goes on over what is held, and how many steps it counted.
fn resumed(
    alloc: Global,
    held: IndexMap<NumberedContext, HeldContext>,
) -> Result<(EdgeLog, u64), AllocError> {
    let rows = program(alloc)?;
    let steps: Steps<Entries> = Steps::new();
    let mut engine = NumberedEngine::counting(alloc, &rows, steps);
    let log = resume(alloc, &mut engine, held)?;
    Ok((log, engine.into_steps().count()))
}

#[test]
fn all_edges_are_worked_off_where_nothing_is_held(rt: HostRuntime) -> Result<(), Fail> {
    let rows = program(rt.alloc())?;
    let mut engine: NumberedEngine<Entries> = NumberedEngine::new(rt.alloc(), &rows);
    let log = tabulate(rt.alloc(), &mut engine)?;
    assert_eq!(rt; log.len(), 7);
    assert_eq!(rt; log.get(4), Some(edge(1, 1, 1)));
    assert_eq!(rt; log.get(6), Some(edge(0, 1, 1)));
    assert_eq!(rt; engine.into_steps().count(), 7);
    Ok(())
}

#[test]
fn held_context_is_passed_by(rt: HostRuntime) -> Result<(), Fail> {
    let mut held = IndexMap::new(rt.alloc());
    held.insert(context(1), held_of_f(rt.alloc())?)?;
    let (log, steps) = resumed(rt.alloc(), held)?;
    assert_eq!(rt; log.len(), 6);
    assert_eq!(rt; log.get(1), Some(edge(1, 0, 0)));
    assert_eq!(rt; log.get(2), Some(edge(1, 2, 1)));
    assert_eq!(rt; log.get(3), Some(edge(2, 0, 0)));
    assert_eq!(rt; log.get(4), Some(edge(0, 1, 1)));
    assert_eq!(rt; log.get(5), Some(edge(2, 1, 1)));
    assert_eq!(rt; steps, 4);
    Ok(())
}

#[test]
fn held_contexts_begin_each_other(rt: HostRuntime) -> Result<(), Fail> {
    let mut held = IndexMap::new(rt.alloc());
    held.insert(context(1), held_of_f(rt.alloc())?)?;
    held.insert(context(2), held_of_g(rt.alloc())?)?;
    let (log, steps) = resumed(rt.alloc(), held)?;
    assert_eq!(rt; log.len(), 6);
    assert_eq!(rt; log.get(4), Some(edge(0, 1, 1)));
    assert_eq!(rt; steps, 2);
    Ok(())
}
