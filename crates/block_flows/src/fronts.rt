//! The tuples that stand between two events, each once.

ghost use Rattle.std.specs.Prelude.{◌≡◌, [], ◌∷◌, IfOk};
ghost use Rattle.state_tuples.specs.AppliedRules.Events.{AreOfEvent};
ghost use Rattle.path_model.specs.CheckerModel.Happenings.{Function, Happening};
ghost use Rattle.path_model.specs.CheckerModel.Reports.{Checker};
ghost use Rattle.least_set.specs.Logs.{IsExactly, SomeGives};
ghost use Rattle.block_flows.specs.TupleFlows.Behind.{IsBehind};
ghost use Rattle.block_flows.specs.TupleFlows.Moved.{AreObjects};

use crate::sets::add_all;
use crate::tuple_flows::over_event;
use indexmap::IndexSet;
use objects::{Object, copy};
use state_tuples::{EventRules, Tuple};
use std::alloc::{AllocError, Global};

// An equal object, if there is one.
pub(crate) fn copy_object(object: &Option<Object>) -> Option<Object>
    ensures { result ≡ object.now }
{
    match object {
        Some(object) => Some(copy(object)),
        None => None,
    }
}

// An equal tuple.
fn copy_tuple(tuple: &Tuple) -> Tuple
    ensures { result ≡ tuple.now }
{
    Tuple {
        global: tuple.global,
        object: copy_object(&tuple.object),
        state: tuple.state,
    }
}

/// The tuple alone, before the first event.
pub(crate) fn first(alloc: Global, tuple: &Tuple) -> Result<IndexSet<Tuple>, AllocError>
    ensures { IfOk result (λ set. set.keys ≡ tuple.now ∷ []) }
{
    let mut set = IndexSet::new(alloc);
    set.insert(copy_tuple(tuple))?;
    Ok(set)
}

/// Equal tuples.
pub(crate) fn copies(alloc: Global, tuples: &[Tuple]) -> Result<Vec<Tuple>, AllocError>
    ensures { IfOk result (λ list. list.items ≡ tuples.now) }
{
    let mut list = Vec::new(alloc);
    for tuple in tuples {
        list.push(copy_tuple(tuple))?;
    }
    Ok(list)
}

/// The tuples behind an event, of those that stand before it.
pub(crate) fn next(
    alloc: Global,
    rules: &EventRules,
    is_root: bool,
    tuples: &[Tuple],
    followed: &IndexSet<Object>,
) -> Result<IndexSet<Tuple>, AllocError>
    ensures { IfOk result (λ set. (c : Checker) (h : Happening) (f : Function) → AreOfEvent c.machine c.depth h f rules.now → AreObjects c.depth followed.now.keys → IsExactly set.keys (SomeGives (IsBehind c h f is_root followed.now.keys) tuples.now)) }
{
    let mut set = IndexSet::new(alloc);
    for tuple in tuples {
        let behind = over_event(alloc, rules, is_root, tuple, followed)?;
        add_all(&mut set, behind)?;
    }
    Ok(set)
}
