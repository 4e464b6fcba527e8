//! Tuples behind events.

ghost use Rattle.std.specs.Prelude.{◌≡◌, map, IfOk};
ghost use Rattle.state_tuples.specs.AppliedRules.Events.{AreOfEvent};
ghost use Rattle.path_model.specs.CheckerModel.Happenings.{Function, Happening};
ghost use Rattle.path_model.specs.CheckerModel.Reports.{Checker};
ghost use Rattle.least_set.specs.Logs.{IsExactly};
ghost use Rattle.block_flows.specs.TupleFlows.Behind.{IsBehind, chosen_tuple};
ghost use Rattle.block_flows.specs.TupleFlows.Moved.{AreObjects};

use crate::tuple_flows::moves::moved;
use crate::tuple_flows::parts::{of_none, of_object};
use indexmap::IndexSet;
use objects::{Object, copy};
use state_tuples::{EventRules, Tuple};
use std::alloc::{AllocError, Global};

// The tuple that is chosen for one behind the move, where the next global state is known.
fn chosen(rules: &EventRules, is_root: bool, next: u16, tuple: &Tuple) -> Tuple
    ensures { (c : Checker) (h : Happening) (f : Function) → AreOfEvent c.machine c.depth h f rules.now → result ≡ chosen_tuple c h f is_root next tuple.now }
{
    match &tuple.object {
        Some(object) => {
            let state = rules.next_state(is_root, tuple.global, object, tuple.state);
            of_object(next, copy(object), state)
        }
        None => of_none(next),
    }
}

// The same of each.
fn chosen_each(
    alloc: Global,
    rules: &EventRules,
    is_root: bool,
    next: u16,
    tuples: &[Tuple],
) -> Result<Vec<Tuple>, AllocError>
    ensures { IfOk result (λ list. (c : Checker) (h : Happening) (f : Function) → AreOfEvent c.machine c.depth h f rules.now → list.items ≡ map (chosen_tuple c h f is_root next) tuples.now) }
{
    let mut list = Vec::new(alloc);
    for tuple in tuples {
        list.push(chosen(rules, is_root, next, tuple))?;
    }
    Ok(list)
}

/// The tuples that one becomes over an event of this function, in a root's own frame or in a called one: exactly those to which it flows, in
/// the next global state. Those that are followed are objects at the depth of the rules.
pub fn over_event(
    alloc: Global,
    rules: &EventRules,
    is_root: bool,
    tuple: &Tuple,
    followed: &IndexSet<Object>,
) -> Result<Vec<Tuple>, AllocError>
    ensures { IfOk result (λ list. (c : Checker) (h : Happening) (f : Function) → AreOfEvent c.machine c.depth h f rules.now → AreObjects c.depth followed.now.keys → IsExactly list.items (IsBehind c h f is_root followed.now.keys tuple.now)) }
{
    let setting = &rules.setting;
    let before = moved(
        alloc,
        &rules.event,
        setting.unit,
        setting.depth,
        tuple,
        followed,
    )?;
    let next = rules.next_global(is_root, tuple.global);
    chosen_each(alloc, rules, is_root, next, before.as_slice())
}
