//! Walks through graphs, each cut off behind so many events.

use crate::events::write_event;
use flow_graph::{End, Event, Graph};
use mx_base::Names;
use std::alloc::{AllocError, Global};

/// A walk through a graph that isn't at its end.
#[derive(Drop)]
struct Walk {
    block: u32,
    events: usize,
    blocks: usize,
    text: Vec<u8>,
}

/// The walks that go on behind a block, the first target last.
fn go_on(
    alloc: Global,
    walk: &Walk,
    targets: &[u32],
    open: &mut Vec<Walk>,
) -> Result<(), AllocError> {
    let mut left = targets.len();
    while left > 0 {
        left -= 1;
        open.push(Walk {
            block: targets[left],
            events: walk.events,
            blocks: walk.blocks,
            text: Vec::from_slice(alloc, walk.text.as_slice())?,
        })?;
    }
    Ok(())
}

/// Puts a walk behind those that have ended; one that was cut off has a `~`.
fn close_walk(walk: &Walk, is_cut: bool, all: &mut Vec<u8>) -> Result<(), AllocError> {
    if !all.is_empty() {
        all.push(b'|')?;
    }
    all.extend_from_slice(walk.text.as_slice())?;
    if is_cut {
        all.push(b'~')?;
    }
    Ok(())
}

/// The events of a block, of which a walk takes no more than are left to it.
fn take_events(
    events: &[Event],
    names: &Names,
    limit: usize,
    walk: &mut Walk,
) -> Result<(), AllocError> {
    for event in events {
        if walk.events >= limit {
            return Ok(());
        }
        write_event(*event, names, &mut walk.text)?;
        walk.events += 1;
    }
    Ok(())
}

/// Goes through the block of a walk.
fn step(
    alloc: Global,
    graph: &Graph,
    names: &Names,
    limit: usize,
    mut walk: Walk,
    open: &mut Vec<Walk>,
    all: &mut Vec<u8>,
) -> Result<(), AllocError> {
    if walk.block >= graph.count() || walk.blocks > 60 {
        return close_walk(&walk, true, all);
    }
    let block = graph.block(walk.block);
    walk.blocks += 1;
    take_events(block.events.as_slice(), names, limit, &mut walk)?;
    match &block.end {
        End::Exit => close_walk(&walk, false, all),
        _ if walk.events >= limit => close_walk(&walk, true, all),
        End::Goto(targets) => go_on(alloc, &walk, targets.as_slice(), open),
        End::Call { next, .. } => {
            walk.text.extend_from_slice(b" @")?;
            go_on(alloc, &walk, &[*next], open)
        }
    }
}

/// The traces of a graph, each cut off behind so many events.
pub fn traces_of(
    alloc: Global,
    graph: &Graph,
    names: &Names,
    limit: usize,
) -> Result<Vec<u8>, AllocError> {
    let mut all = Vec::new(alloc);
    let mut open = Vec::new(alloc);
    open.push(Walk {
        block: graph.entry(),
        events: 0,
        blocks: 0,
        text: Vec::new(alloc),
    })?;
    for _ in 0..2000 {
        let Some(walk) = open.pop() else {
            return Ok(all);
        };
        step(alloc, graph, names, limit, walk, &mut open, &mut all)?;
    }
    Ok(all)
}
