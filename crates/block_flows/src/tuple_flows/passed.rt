//! Tuples at entries of callees, and behind calls. What is followed is handed in for both functions.

ghost use Rattle.std.specs.Prelude.{◌≡◌, ◌≤◌, [], ◌∷◌, true, None, Some, is_none, IfOk};
ghost use Rattle.path_model.specs.CheckerModel.Happenings.{Function, Site as Form};
ghost use Rattle.path_model.specs.CheckerModel.Reports.{Checker};
ghost use Rattle.least_set.specs.Logs.{IsExactly, SomeGives};
ghost use Rattle.refine_restore.specs.Sites.{site_of};
ghost use Rattle.block_flows.specs.TupleFlows.Facts.{is_in, with_object};
ghost use Rattle.block_flows.specs.TupleFlows.Passed.{into_in, out_in, IsSite, IsEntered, IsReturned};

use crate::tuple_flows::parts::{is_followed, with_followed, with_object, without_object};
use indexmap::IndexSet;
use objects::{Object, Origin, copy};
use refine_restore::{Site, entered_by, handed_to, into_callee};
use state_tuples::Tuple;
use std::alloc::{AllocError, Global};

// Whether an object that is followed in the callee begins unknown: with the state of none of the caller's that are followed.
fn begins_unknown(
    site: &Site,
    object: &Object,
    depth: u8,
    caller_objects: &IndexSet<Object>,
    callee_objects: &IndexSet<Object>,
) -> bool
    requires { depth ≤ 8 }
    ensures { is_in callee_objects.now.keys object.now ≡ true → result ≡ is_none (into_in depth (site_of depth site.now) caller_objects.now.keys callee_objects.now.keys object.now) }
{
    match into_callee(site, object, depth) {
        Origin::Same => !is_followed(caller_objects, object),
        Origin::From(source) => !is_followed(caller_objects, &source),
        Origin::Nothing => true,
    }
}

// Those of the callee's objects that begin unknown, in the states of a tuple.
fn entered_unknown(
    alloc: Global,
    site: &Site,
    depth: u8,
    tuple: &Tuple,
    caller_objects: &IndexSet<Object>,
    callee_objects: &IndexSet<Object>,
) -> Result<Vec<Tuple>, AllocError>
    requires { depth ≤ 8 }
    ensures { IfOk result (λ list. IsExactly list.items (SomeGives (λ o u. (into_in depth (site_of depth site.now) caller_objects.now.keys callee_objects.now.keys o ≡ None) × (with_object tuple.now o ≡ u)) callee_objects.now.keys)) }
{
    let mut list = Vec::new(alloc);
    let objects = callee_objects.as_slice();
    for object in objects {
        if begins_unknown(site, object, depth, caller_objects, callee_objects) {
            list.push(with_object(tuple, copy(object)))?;
        }
    }
    Ok(list)
}

// The tuples with which a callee is entered where one without an object stands before the call.
fn entered_none(
    alloc: Global,
    site: &Site,
    depth: u8,
    tuple: &Tuple,
    caller_objects: &IndexSet<Object>,
    callee_objects: &IndexSet<Object>,
) -> Result<Vec<Tuple>, AllocError>
    requires { depth ≤ 8 }
    ensures { IfOk result (λ list. tuple.now.object ≡ None → (c : Checker) (s : Form) (callee : Function) → c.depth ≡ depth → IsSite depth site.now s → IsExactly list.items (IsEntered c s callee caller_objects.now.keys callee_objects.now.keys tuple.now)) }
{
    let mut list = entered_unknown(alloc, site, depth, tuple, caller_objects, callee_objects)?;
    list.push(without_object(tuple))?;
    Ok(list)
}

// Those of the callee's objects that begin with the state of this object of the caller, in the states of a tuple; none where this one isn't
// followed.
fn entered(
    alloc: Global,
    site: &Site,
    depth: u8,
    tuple: &Tuple,
    object: &Object,
    caller_objects: &IndexSet<Object>,
    callee_objects: &IndexSet<Object>,
) -> Result<Vec<Tuple>, AllocError>
    requires { depth ≤ 8 }
    ensures { IfOk result (λ list. IsExactly list.items (SomeGives (λ o u. (into_in depth (site_of depth site.now) caller_objects.now.keys callee_objects.now.keys o ≡ Some object.now) × (with_object tuple.now o ≡ u)) callee_objects.now.keys)) }
{
    if !is_followed(caller_objects, object) {
        return Ok(Vec::new(alloc));
    }
    let begun = entered_by(alloc, site, object, depth)?;
    with_followed(alloc, tuple, begun.as_slice(), callee_objects)
}

/// The tuples with which a callee is entered where this one stands before the call, among the objects that are followed in the caller and in
/// the callee.
pub fn into_call(
    alloc: Global,
    site: &Site,
    depth: u8,
    tuple: &Tuple,
    caller_objects: &IndexSet<Object>,
    callee_objects: &IndexSet<Object>,
) -> Result<Vec<Tuple>, AllocError>
    requires { depth ≤ 8 }
    ensures { IfOk result (λ list. (c : Checker) (s : Form) (callee : Function) → c.depth ≡ depth → IsSite depth site.now s → IsExactly list.items (IsEntered c s callee caller_objects.now.keys callee_objects.now.keys tuple.now)) }
{
    match &tuple.object {
        Some(object) => entered(
            alloc,
            site,
            depth,
            tuple,
            object,
            caller_objects,
            callee_objects,
        ),
        None => entered_none(alloc, site, depth, tuple, caller_objects, callee_objects),
    }
}

// Those of the caller's objects that have their state behind the call from this object of the callee, in the states of a tuple; none where
// this one isn't followed.
fn returned(
    alloc: Global,
    site: &Site,
    depth: u8,
    tuple: &Tuple,
    object: &Object,
    caller_objects: &IndexSet<Object>,
    callee_objects: &IndexSet<Object>,
) -> Result<Vec<Tuple>, AllocError>
    requires { depth ≤ 8 }
    ensures { IfOk result (λ list. IsExactly list.items (SomeGives (λ o u. (out_in depth (site_of depth site.now) caller_objects.now.keys callee_objects.now.keys o ≡ Some object.now) × (with_object tuple.now o ≡ u)) caller_objects.now.keys)) }
{
    if !is_followed(callee_objects, object) {
        return Ok(Vec::new(alloc));
    }
    let handed = handed_to(alloc, site, object, depth)?;
    with_followed(alloc, tuple, handed.as_slice(), caller_objects)
}

// A list of one tuple.
fn alone(alloc: Global, tuple: Tuple) -> Result<Vec<Tuple>, AllocError>
    ensures { IfOk result (λ list. list.items ≡ tuple ∷ []) }
{
    let mut list = Vec::new(alloc);
    list.push(tuple)?;
    Ok(list)
}

/// The tuples behind a call where its callee has ended with this one, among the objects that are followed in the caller and in the callee.
/// What is saved over the call isn't among them.
pub fn out_of_call(
    alloc: Global,
    site: &Site,
    depth: u8,
    tuple: &Tuple,
    caller_objects: &IndexSet<Object>,
    callee_objects: &IndexSet<Object>,
) -> Result<Vec<Tuple>, AllocError>
    requires { depth ≤ 8 }
    ensures { IfOk result (λ list. (c : Checker) (s : Form) (caller : Function) → c.depth ≡ depth → IsSite depth site.now s → IsExactly list.items (IsReturned c s caller caller_objects.now.keys callee_objects.now.keys tuple.now)) }
{
    match &tuple.object {
        Some(object) => returned(
            alloc,
            site,
            depth,
            tuple,
            object,
            caller_objects,
            callee_objects,
        ),
        None => alone(alloc, without_object(tuple)),
    }
}
