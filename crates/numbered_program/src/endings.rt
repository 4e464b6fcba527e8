//! How blocks end.

ghost use Rattle.std.specs.Prelude.{◌≡◌, ℕ, List, None, Some, IfOk, IfSome, slice_get};
ghost use Rattle.c_tree.specs.Node.{Node};
ghost use Rattle.c_tree.specs.Views.{node_of};
ghost use Rattle.flow_graph.specs.CPaths.Graphs.{Calls, ToAny};
ghost use Rattle.flow_graph.specs.Values.{ending_of};
ghost use Rattle.function_tables.specs.EngineTables.Known.{texts_in};
ghost use Rattle.numbered_program.specs.Made.{IsEndingIn};
ghost use Rattle.numbered_program.specs.Numbered.{EndsIn, IsSourceOf, followed_from};
ghost use Rattle.path_model.specs.CheckerGraphs.Graphs.{function_at};
ghost use Rattle.path_model.specs.CheckerModel.Choices.{State};
ghost use Rattle.path_model.specs.CheckerModel.Happenings.{Function};
ghost use Rattle.type_rules.specs.Options.{◌>?◌};

use crate::numbered_calls::call_rows;
use crate::numbers::{FunctionSource, Numbers};
use crate::swaps::{all_swapped, swapped};
use c_tree::Tree;
use flow_graph::End;
use function_tables::{callee_at, item};
use numbered_engine::Ending;
use std::alloc::{AllocError, Global};

/// A function that is called, with its numbers.
#[derive(Drop)]
pub(crate) struct Callee<'s, 't> {
    pub(crate) function: u32,
    pub(crate) numbers: &'s Numbers<'t>,
}

// The function into which the call at the end of a block is followed, if it ends in one that is.
fn callee_of<'s, 't>(source: &FunctionSource<'s, 't, '_, '_>, block: u32) -> Option<Callee<'s, 't>>
    ensures there { IfSome result (λ k. slice_get source.now.numbers.now k.function ≡ Some k.numbers.now) }
    ensures followed { (states : List State) (f : Function) (call : Node) (next : ℕ) → IsSourceOf states source.now f → EndsIn source.now block (Calls call next) → followed_from source.now f call ≡ (result >? λ k. function_at (texts_in source.now.tables.now) k.function) }
{
    let function = callee_at(source.table, block)?;
    let numbers = item(source.numbers, function)?;
    Some(Callee { function, numbers })
}

// The end of a block that leads to any of these.
fn led_on(alloc: Global, source: &FunctionSource, targets: &[u32]) -> Result<Ending, AllocError>
    ensures { IfOk result (λ e. (states : List State) (f : Function) → IsEndingIn states source.now f (ToAny targets.now) e) }
{
    let blocks = all_swapped(alloc, source.table.graph.entry(), targets)?;
    Ok(Ending::Next(blocks))
}

// The end of a block in a call that isn't followed.
fn passed(alloc: Global, source: &FunctionSource, next: u32) -> Result<Ending, AllocError>
    ensures { IfOk result (λ e. (states : List State) (f : Function) (call : Node) → followed_from source.now f call ≡ None → IsEndingIn states source.now f (Calls call next) e) }
{
    let blocks = all_swapped(alloc, source.table.graph.entry(), &[next])?;
    Ok(Ending::Next(blocks))
}

// The end of a block in a call that is followed.
fn entered<'a>(
    alloc: Global,
    source: &FunctionSource<'_, '_, '_, 'a>,
    call: &Tree<'a>,
    next: u32,
    callee: &Callee,
) -> Result<Ending, AllocError>
    ensures { IfOk result (λ e. (states : List State) (f : Function) → IsSourceOf states source.now f → slice_get source.now.numbers.now callee.now.function ≡ Some callee.now.numbers.now → followed_from source.now f (node_of call.now) ≡ function_at (texts_in source.now.tables.now) callee.now.function → IsEndingIn states source.now f (Calls (node_of call.now) next) e) }
{
    let tables = source.tables;
    match tables.site(source.function, call) {
        Some(site) => {
            let rows = call_rows(
                alloc,
                &site,
                tables.depth,
                &source.own.numbering,
                &callee.numbers.numbering,
                callee.function,
                swapped(source.table.graph.entry(), next),
            )?;
            Ok(Ending::Calls(rows))
        }
        None => Ok(Ending::Exit),
    }
}

// The end of a block in a call.
fn at_call<'a>(
    alloc: Global,
    source: &FunctionSource<'_, '_, '_, 'a>,
    block: u32,
    call: &Tree<'a>,
    next: u32,
) -> Result<Ending, AllocError>
    ensures { IfOk result (λ e. (states : List State) (f : Function) → IsSourceOf states source.now f → EndsIn source.now block (Calls (node_of call.now) next) → IsEndingIn states source.now f (Calls (node_of call.now) next) e) }
{
    match callee_of(source, block) {
        Some(callee) => entered(alloc, source, call, next, &callee),
        None => passed(alloc, source, next),
    }
}

/// The end of a block that ends so in the graph of its function.
pub(crate) fn made_ending<'a>(
    alloc: Global,
    source: &FunctionSource<'_, '_, '_, 'a>,
    block: u32,
    end: &End<'a>,
) -> Result<Ending, AllocError>
    ensures { IfOk result (λ e. (states : List State) (f : Function) → IsSourceOf states source.now f → EndsIn source.now block (ending_of end.now) → IsEndingIn states source.now f (ending_of end.now) e) }
{
    match end {
        End::Goto(targets) => led_on(alloc, source, targets.as_slice()),
        End::Call { site, next } => at_call(alloc, source, block, site, *next),
        End::Exit => Ok(Ending::Exit),
    }
}
