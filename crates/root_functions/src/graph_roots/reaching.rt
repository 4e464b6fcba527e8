//! Sets of functions: those to which some function leads, and those that a function reaches.

ghost use Rattle.std.specs.Prelude.{◌<◌, length, IfOk, Contains};
ghost use Rattle.root_functions.specs.GraphRoots.Graphs.{LeadsIn, StaysWithin, AreClosed, AreWithin, Entered, IsVisited};
ghost use Rattle.least_set.specs.Logs.{Adds, IsExactly};

use crate::graph_roots::callees::Callees;
use indexmap::IndexSet;
use std::alloc::{AllocError, Global};

// Puts last those of these functions that aren't there yet.
fn add_all(found: &mut IndexSet<u32>, functions: &[u32]) -> Result<(), AllocError>
    ensures { IfOk result (λ _. Adds (Contains functions.now) found.old.keys found.new.keys) }
{
    for function in functions {
        found.insert(*function)?;
    }
    Ok(())
}

/// The functions to which some function leads.
pub(crate) fn entered(alloc: Global, callees: &Vec<Callees>) -> Result<IndexSet<u32>, AllocError>
    ensures { IfOk result (λ found. IsExactly found.keys (Entered callees.now.items)) }
{
    let mut found = IndexSet::new(alloc);
    for row in callees.as_slice() {
        add_all(&mut found, row.numbers.as_slice())?;
    }
    Ok(found)
}

/// Adds a function and all that it reaches. What was there before led nowhere else, so the work is that of going over what is added.
pub(crate) fn visit(
    callees: &Vec<Callees>,
    reached: &mut IndexSet<u32>,
    root: u32,
) -> Result<(), AllocError>
    requires stays { StaysWithin callees.now.items }
    requires root { root < length callees.now.items }
    requires within { AreWithin callees.now.items reached.old.keys }
    requires closed { AreClosed callees.now.items reached.old.keys }
    ensures { IfOk result (λ _. IsVisited callees.now.items reached.old.keys root reached.new.keys) }
{
    let mut i = reached.len();
    reached.insert(root)?;
    while i < reached.len() {
        let function = reached.as_slice()[i];
        add_all(reached, callees[function as usize].numbers.as_slice())?;
        i += 1;
    }
    Ok(())
}
