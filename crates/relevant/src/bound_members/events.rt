//! Objects that rules bind at events.

ghost use Rattle.std.specs.Prelude.{◌≡◌, ◌++◌, ℕ, List, IfOk};
ghost use Rattle.state_tuples.specs.AppliedRules.Events.{AreOfEvent};
ghost use Rattle.relevant.specs.BoundMembers.Bound.{BoundAt};
ghost use Rattle.path_model.specs.CheckerModel.Happenings.{Function, Happening};
ghost use Rattle.function_tables.specs.Rules.{AreOfEvents};
ghost use Rattle.least_set.specs.Logs.{Adds, SomeGives};
ghost use Rattle.metal_tree.specs.MetalMachines.Machine.{Machine};
ghost use Rattle.path_model.specs.CheckerGraphs.Members.{members};

use objects::Object;
use state_tuples::{EventRules, RuleSources};
use std::alloc::{AllocError, Global};

// Puts last these objects of the function with this number.
fn add_members(
    found: &mut Vec<(u32, Object)>,
    number: u32,
    objects: Vec<Object>,
) -> Result<(), AllocError>
    ensures { IfOk result (λ _. found.new.items ≡ found.old.items ++ members number objects.items) }
{
    for object in objects {
        found.push((number, object))?;
    }
    Ok(())
}

// Puts last what the rules of an event in this function bind that begin in these states.
fn add_at(
    alloc: Global,
    found: &mut Vec<(u32, Object)>,
    rules: &EventRules,
    number: u32,
    sources: RuleSources,
) -> Result<(), AllocError>
    ensures { IfOk result (λ _. (m : Machine) (depth : ℕ) (f : Function) (h : Happening) → AreOfEvent m depth h f rules.now → Adds (BoundAt sources m depth number f h) found.old.items found.new.items) }
{
    let objects = rules.bound_objects(alloc, sources)?;
    add_members(found, number, objects)
}

/// Puts last what the rules of events in this function bind that begin in these states.
pub(crate) fn add_at_events(
    alloc: Global,
    found: &mut Vec<(u32, Object)>,
    events: &[EventRules],
    number: u32,
    sources: RuleSources,
) -> Result<(), AllocError>
    ensures { IfOk result (λ _. (m : Machine) (depth : ℕ) (f : Function) (hs : List Happening) → AreOfEvents m depth f hs events.now → Adds (SomeGives (BoundAt sources m depth number f) hs) found.old.items found.new.items) }
{
    for rules in events {
        add_at(alloc, found, rules, number, sources)?;
    }
    Ok(())
}
