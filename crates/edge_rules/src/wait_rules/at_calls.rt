//! Who waits at a call.

ghost use Rattle.std.specs.Prelude.{◌≡◌, ◌≤◌, IfOk, IfSome, None, is_none};
ghost use Rattle.c_objects.specs.Objects.{Object as Form};
ghost use Rattle.path_model.specs.CheckerModel.Happenings.{Function, Site as Call};
ghost use Rattle.path_model.specs.CheckerModel.Reports.{Checker};
ghost use Rattle.path_edges.specs.EdgeSteps.Steps.{StandsBehind, wait_for};
ghost use Rattle.function_tables.specs.EngineTables.Known.{AreKnown, checker_in, texts_in, graphs_in, objects_in};
ghost use Rattle.least_set.specs.Logs.{IsExactly, SomeGives};
ghost use Rattle.path_edges.specs.Relations.{WaitsAt};
ghost use Rattle.refine_restore.specs.Sites.{site_of};
ghost use Rattle.state_tuples.specs.declared.tuple.Tuple.{Tuple as Entry};
ghost use Rattle.block_flows.specs.TupleFlows.Facts.{without_object};
ghost use Rattle.block_flows.specs.TupleFlows.Passed.{out_in, IsSite, IsEntered};
ghost use Rattle.edge_rules.specs.WaitRules.Waiters.{IsSaved, IsWaiting, wait_with};

use crate::wait_rules::followed_calls::{FollowedCall, followed_call};
use block_flows::{into_call, is_followed};
use function_tables::Tables;
use least_set::Wait;
use objects::{Object, copy};
use path_edges::{Context, Edge, Waiter, copy_context, waits_for};
use refine_restore::out_of_callee;
use state_tuples::Tuple;
use std::alloc::{AllocError, Global};

// Those who wait for what the callee hands back, one for each tuple with which it is entered where this one stands before the call.
fn waits_for_entered(
    alloc: Global,
    depth: u8,
    call: &FollowedCall,
    edge: &Edge,
    tuple: &Tuple,
) -> Result<Vec<Wait<Context, Waiter>>, AllocError>
    requires { depth ≤ 8 }
    ensures { IfOk result (λ list. (c : Checker) (s : Call) (callee : Function) → c.depth ≡ depth → IsSite depth call.now.site s → IsExactly list.items (λ w. (u : Entry) × IsEntered c s callee call.now.caller_objects.now.keys call.now.callee_objects.now.keys tuple.now u × (wait_for edge.now call.now.callee call.now.behind u ≡ w))) }
{
    let entries = into_call(
        alloc,
        &call.site,
        depth,
        tuple,
        call.caller_objects,
        call.callee_objects,
    )?;
    waits_for(alloc, edge, call.callee, call.behind, entries.as_slice())
}

// Whether an object before a call keeps its state over it: it has it behind the call from none that is followed in the callee, or isn't
// followed in the caller.
fn is_kept(call: &FollowedCall, object: &Object, depth: u8) -> bool
    requires { depth ≤ 8 }
    ensures { result ≡ is_none (out_in depth (site_of depth call.now.site) call.now.caller_objects.now.keys call.now.callee_objects.now.keys object.now) }
{
    if !is_followed(call.caller_objects, object) {
        return true;
    }
    match out_of_callee(&call.site, object, depth) {
        Some(through) => !is_followed(call.callee_objects, &through),
        None => true,
    }
}

// The object of a tuple, if it is saved over a call.
fn saved_object<'p>(call: &FollowedCall, depth: u8, tuple: &'p Tuple) -> Option<&'p Object>
    requires { depth ≤ 8 }
    ensures there { IfSome result (λ o. IsSaved depth (site_of depth call.now.site) call.now.caller_objects.now.keys call.now.callee_objects.now.keys tuple.now o.now) }
    ensures missing { result ≡ None → (o : Form) → IsSaved depth (site_of depth call.now.site) call.now.caller_objects.now.keys call.now.callee_objects.now.keys tuple.now o → ⊥ }
{
    let object = tuple.object.as_ref()?;
    if !is_kept(call, object, depth) {
        return None;
    }
    Some(object)
}

// No object, in the global state of a tuple.
fn without_object(tuple: &Tuple) -> Tuple
    ensures { result ≡ without_object tuple.now }
{
    Tuple {
        global: tuple.global,
        object: None,
        state: None,
    }
}

// Who waits with an object that is saved over the call.
fn wait_with(
    call: &FollowedCall,
    edge: &Edge,
    tuple: &Tuple,
    object: &Object,
) -> Wait<Context, Waiter>
    ensures { result ≡ wait_with edge.now call.now.callee call.now.behind tuple.now object.now }
{
    Wait {
        on: Context {
            function: call.callee,
            entry: without_object(tuple),
        },
        waiter: Waiter {
            context: copy_context(&edge.context),
            is_root: edge.is_root,
            block: edge.block,
            behind: call.behind,
            saved: Some((copy(object), tuple.state)),
        },
    }
}

// Those who wait because of a tuple before the call.
fn waits_of(
    alloc: Global,
    depth: u8,
    call: &FollowedCall,
    edge: &Edge,
    tuple: &Tuple,
) -> Result<Vec<Wait<Context, Waiter>>, AllocError>
    requires { depth ≤ 8 }
    ensures { IfOk result (λ list. (c : Checker) (s : Call) (callee : Function) → c.depth ≡ depth → IsSite depth call.now.site s → IsExactly list.items (IsWaiting c s callee call.now.caller_objects.now.keys call.now.callee_objects.now.keys call.now.callee call.now.behind edge.now tuple.now)) }
{
    let mut waits = waits_for_entered(alloc, depth, call, edge, tuple)?;
    if let Some(saved) = saved_object(call, depth, tuple) {
        waits.push(wait_with(call, edge, tuple, saved))?;
    }
    Ok(waits)
}

// Those who wait because of one of these tuples before the call.
fn waits_of_all(
    alloc: Global,
    depth: u8,
    call: &FollowedCall,
    edge: &Edge,
    tuples: &[Tuple],
) -> Result<Vec<Wait<Context, Waiter>>, AllocError>
    requires { depth ≤ 8 }
    ensures { IfOk result (λ list. (c : Checker) (s : Call) (callee : Function) → c.depth ≡ depth → IsSite depth call.now.site s → IsExactly list.items (SomeGives (IsWaiting c s callee call.now.caller_objects.now.keys call.now.callee_objects.now.keys call.now.callee call.now.behind edge.now) tuples.now)) }
{
    let mut waits = Vec::new(alloc);
    for tuple in tuples {
        let mut found = waits_of(alloc, depth, call, edge, tuple)?;
        waits.append(&mut found)?;
    }
    Ok(waits)
}

/// Those who wait at the end of an edge's block, where these are the tuples that stand there. Where it ends in a call that is followed, there
/// is one for what the callee hands back, for each tuple with which it is entered, and one for each object that is saved over the call: he
/// waits with it, and its state at the call, for the callee that is entered without an object. Elsewhere nobody waits. Any edge may be asked
/// for, also one in a function that isn't there.
pub fn waits(
    alloc: Global,
    tables: &Tables,
    edge: &Edge,
    tuples: &[Tuple],
) -> Result<Vec<Wait<Context, Waiter>>, AllocError>
    ensures { IfOk result (λ list. AreKnown tables.now → IsExactly tuples.now (StandsBehind (checker_in tables.now) (texts_in tables.now) (graphs_in tables.now) (objects_in tables.now) edge.now) → IsExactly list.items (λ w. WaitsAt (checker_in tables.now) (texts_in tables.now) (graphs_in tables.now) (objects_in tables.now) edge.now w.on w.waiter)) }
{
    match followed_call(tables, edge.context.function, edge.block) {
        Some(call) => waits_of_all(alloc, tables.depth, &call, edge, tuples),
        None => Ok(Vec::new(alloc)),
    }
}
