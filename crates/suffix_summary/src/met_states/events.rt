//! What takes a rule at the events of a block while it is unknown.

ghost use Rattle.std.specs.Prelude.{◌≡◌, List, None, is_some, IfOk};
ghost use Rattle.block_flows.specs.Events.{AreOfEvents};
ghost use Rattle.least_set.specs.Logs.{Adds, SomeGives};
ghost use Rattle.path_model.specs.CheckerModel.Choices.{taken};
ghost use Rattle.path_model.specs.CheckerModel.Happenings.{Function, Happening};
ghost use Rattle.path_model.specs.CheckerModel.Reports.{Checker};
ghost use Rattle.suffix_summary.specs.MetStates.{GivesOne, GivesAt, GivesAmong};
ghost use Rattle.state_tuples.specs.AppliedRules.Events.{AreOfEvent};

use objects::Object;
use state_tuples::{EventRules, RuleSources};
use std::alloc::{AllocError, Global};

/// Frames of a function, of one kind.
#[derive(Clone, Copy)]
pub(crate) struct Frames {
    /// The number of the function.
    pub(crate) function: u32,
    /// Whether they are a root's own. Else they were called.
    pub(crate) is_root: bool,
}

// Whether the object takes a rule of the event while it is unknown.
fn takes(rules: &EventRules, is_root: bool, global: u16, object: &Object) -> bool
    ensures { (c : Checker) (f : Function) (h : Happening) → AreOfEvent c.machine c.depth h f rules.now → result ≡ is_some (taken c.machine c.depth h f is_root global object.now None) }
{
    rules.taken(is_root, global, object, None).is_some()
}

// Puts last the object with the number of the function, if it takes a rule of the event in this global state.
fn add_if_taken(
    found: &mut Vec<(u32, Object)>,
    rules: &EventRules,
    frames: Frames,
    global: u16,
    object: Object,
) -> Result<(), AllocError>
    ensures { IfOk result (λ _. (c : Checker) (f : Function) (h : Happening) → AreOfEvent c.machine c.depth h f rules.now → Adds (GivesOne c f frames.is_root h global frames.function object) found.old.items found.new.items) }
{
    if !takes(rules, frames.is_root, global, &object) {
        return Ok(());
    }
    found.push((frames.function, object))?;
    Ok(())
}

// Puts last those of these objects that do.
fn add_taken(
    found: &mut Vec<(u32, Object)>,
    rules: &EventRules,
    frames: Frames,
    global: u16,
    objects: Vec<Object>,
) -> Result<(), AllocError>
    ensures { IfOk result (λ _. (c : Checker) (f : Function) (h : Happening) → AreOfEvent c.machine c.depth h f rules.now → Adds (SomeGives (GivesOne c f frames.is_root h global frames.function) objects.items) found.old.items found.new.items) }
{
    for object in objects {
        add_if_taken(found, rules, frames, global, object)?;
    }
    Ok(())
}

// Puts last all that take a rule of the event in this global state. The rule binds them, and begins in a global state.
fn add_at_event(
    alloc: Global,
    found: &mut Vec<(u32, Object)>,
    rules: &EventRules,
    frames: Frames,
    global: u16,
) -> Result<(), AllocError>
    ensures { IfOk result (λ _. (c : Checker) (f : Function) (h : Happening) → AreOfEvent c.machine c.depth h f rules.now → Adds (GivesAt c f frames.is_root h global frames.function) found.old.items found.new.items) }
{
    let objects = rules.bound_objects(alloc, RuleSources::GlobalStates)?;
    add_taken(found, rules, frames, global, objects)
}

/// Puts last all that take a rule at one of these events while they are unknown, each with the number of the function. The first event has
/// this global state, each other one that behind the events before it.
pub(crate) fn add_at_events(
    alloc: Global,
    found: &mut Vec<(u32, Object)>,
    events: &[EventRules],
    frames: Frames,
    first: u16,
) -> Result<(), AllocError>
    ensures { IfOk result (λ _. (c : Checker) (f : Function) (hs : List Happening) → AreOfEvents c.machine c.depth f hs events.now → Adds (GivesAmong c f frames.is_root hs first frames.function) found.old.items found.new.items) }
{
    let mut global = first;
    for rules in events {
        add_at_event(alloc, found, rules, frames, global)?;
        global = rules.next_global(frames.is_root, global);
    }
    Ok(())
}
