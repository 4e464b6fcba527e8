//! How an end of a callee wakes who waits for it.

ghost use Rattle.std.specs.Prelude.{◌≡◌, ◌≤◌, IfOk, None};
ghost use Rattle.path_model.specs.CheckerModel.Happenings.{Function, Site as Call};
ghost use Rattle.path_model.specs.CheckerModel.Reports.{Checker};
ghost use Rattle.path_edges.specs.EdgeSteps.Steps.{StandsBehind, put_back, woken_edge};
ghost use Rattle.function_tables.specs.EngineTables.Known.{AreKnown, IsFrame, checker_in, texts_in, graphs_in, objects_in};
ghost use Rattle.least_set.specs.Logs.{IsExactly, SomeGives};
ghost use Rattle.path_edges.specs.declared.edges.Edge.{Edge as End};
ghost use Rattle.path_edges.specs.Relations.{IsWoken};
ghost use Rattle.state_tuples.specs.declared.tuple.Tuple.{Tuple as Ended};
ghost use Rattle.block_flows.specs.TupleFlows.Passed.{IsReturned, IsSite};

use crate::wait_rules::waiting_sites::{called_objects, waiting_site};
use block_flows::out_of_call;
use function_tables::{Frame, Tables};
use indexmap::IndexSet;
use objects::Object;
use path_edges::{Edge, Waiter, put_back_edge, woken};
use refine_restore::Site;
use state_tuples::Tuple;
use std::alloc::{AllocError, Global};

// Where a waiter goes on with what is handed back, where its callee has ended with a tuple.
fn with_handed(
    alloc: Global,
    depth: u8,
    site: &Site,
    waiter: &Waiter,
    tuple: &Tuple,
    caller_objects: &IndexSet<Object>,
    callee_objects: &IndexSet<Object>,
) -> Result<Vec<Edge>, AllocError>
    requires { depth ≤ 8 }
    ensures { IfOk result (λ list. (c : Checker) (s : Call) (caller : Function) → c.depth ≡ depth → IsSite depth site.now s → IsExactly list.items (λ d. (u : Ended) × IsReturned c s caller caller_objects.now.keys callee_objects.now.keys tuple.now u × (woken_edge waiter.now u ≡ d))) }
{
    let handed = out_of_call(alloc, site, depth, tuple, caller_objects, callee_objects)?;
    woken(alloc, waiter, handed.as_slice())
}

// The same where it has ended with these tuples.
fn with_all_handed(
    alloc: Global,
    depth: u8,
    site: &Site,
    waiter: &Waiter,
    tuples: &[Tuple],
    caller_objects: &IndexSet<Object>,
    callee_objects: &IndexSet<Object>,
) -> Result<Vec<Edge>, AllocError>
    requires { depth ≤ 8 }
    ensures { IfOk result (λ list. (c : Checker) (s : Call) (caller : Function) → c.depth ≡ depth → IsSite depth site.now s → IsExactly list.items (SomeGives (λ t d. (u : Ended) × IsReturned c s caller caller_objects.now.keys callee_objects.now.keys t u × (woken_edge waiter.now u ≡ d)) tuples.now)) }
{
    let mut edges = Vec::new(alloc);
    for tuple in tuples {
        let mut found = with_handed(
            alloc,
            depth,
            site,
            waiter,
            tuple,
            caller_objects,
            callee_objects,
        )?;
        edges.append(&mut found)?;
    }
    Ok(edges)
}

// Where a waiter goes on with the object that was saved, at each of these ends without an object.
fn with_put_back(
    alloc: Global,
    waiter: &Waiter,
    object: &Object,
    state: Option<(u8, u16)>,
    tuples: &[Tuple],
) -> Result<Vec<Edge>, AllocError>
    ensures { IfOk result (λ list. IsExactly list.items (SomeGives (λ t d. (t.object ≡ None) × (woken_edge waiter.now (put_back t object.now state) ≡ d)) tuples.now)) }
{
    let mut edges = Vec::new(alloc);
    for tuple in tuples {
        if tuple.object.is_none() {
            edges.push(put_back_edge(waiter, object, state, tuple))?;
        }
    }
    Ok(edges)
}

// Where a waiter in this function goes on that has nothing saved.
fn goes_on_handed<'t, 'u, 'a>(
    alloc: Global,
    tables: &Tables<'t, 'u, 'a>,
    frame: &Frame<'t, 'u, 'a>,
    waiter: &Waiter,
    tuples: &[Tuple],
) -> Result<Vec<Edge>, AllocError>
    ensures { IfOk result (λ list. AreKnown tables.now → IsFrame tables.now waiter.now.context.function frame.now → waiter.now.saved ≡ None → (e : End) → IsExactly tuples.now (StandsBehind (checker_in tables.now) (texts_in tables.now) (graphs_in tables.now) (objects_in tables.now) e) → IsExactly list.items (IsWoken (checker_in tables.now) (texts_in tables.now) (graphs_in tables.now) (objects_in tables.now) waiter.now e)) }
{
    match waiting_site(tables, frame, waiter.context.function, waiter.block) {
        Some(site) => {
            let called = called_objects(tables, frame, waiter.block);
            with_all_handed(
                alloc,
                tables.depth,
                &site,
                waiter,
                tuples,
                frame.objects,
                called,
            )
        }
        None => Ok(Vec::new(alloc)),
    }
}

// Where a waiter in this function goes on.
fn goes_on<'t, 'u, 'a>(
    alloc: Global,
    tables: &Tables<'t, 'u, 'a>,
    frame: &Frame<'t, 'u, 'a>,
    waiter: &Waiter,
    tuples: &[Tuple],
) -> Result<Vec<Edge>, AllocError>
    ensures { IfOk result (λ list. AreKnown tables.now → IsFrame tables.now waiter.now.context.function frame.now → (e : End) → IsExactly tuples.now (StandsBehind (checker_in tables.now) (texts_in tables.now) (graphs_in tables.now) (objects_in tables.now) e) → IsExactly list.items (IsWoken (checker_in tables.now) (texts_in tables.now) (graphs_in tables.now) (objects_in tables.now) waiter.now e)) }
{
    match &waiter.saved {
        Some((object, state)) => with_put_back(alloc, waiter, object, *state, tuples),
        None => goes_on_handed(alloc, tables, frame, waiter, tuples),
    }
}

/// Where a waiter goes on behind its call at an end of the callee, where these are the tuples that stand at the end of that edge's block. One
/// that has nothing saved goes on with each tuple that is handed back of one of them; one that has saved an object goes on with it, in
/// the state that was saved and the global state of each of them that has no object. Any waiter may be asked for, also one that stands
/// at no call or in a function that isn't there.
pub fn wake(
    alloc: Global,
    tables: &Tables,
    waiter: &Waiter,
    end: &Edge,
    tuples: &[Tuple],
) -> Result<Vec<Edge>, AllocError>
    ensures { IfOk result (λ list. AreKnown tables.now → IsExactly tuples.now (StandsBehind (checker_in tables.now) (texts_in tables.now) (graphs_in tables.now) (objects_in tables.now) end.now) → IsExactly list.items (IsWoken (checker_in tables.now) (texts_in tables.now) (graphs_in tables.now) (objects_in tables.now) waiter.now end.now)) }
{
    match tables.frame(waiter.context.function) {
        Some(frame) => goes_on(alloc, tables, &frame, waiter, tuples),
        None => Ok(Vec::new(alloc)),
    }
}
