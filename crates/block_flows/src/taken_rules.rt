//! Which rules with an action are taken while a tuple crosses the events of a block.

ghost use Rattle.std.specs.Prelude.{◌≡◌, ◌+◌, List, map, Some, IfOk, IfSome};
ghost use Rattle.std.specs.List.{All, filter_map};
ghost use Rattle.std.specs.Option.{option_map};
ghost use Rattle.state_tuples.specs.AppliedRules.Events.{AreOfEvent};
ghost use Rattle.state_tuples.specs.AppliedRules.Takers.{IsFirstFor};
ghost use Rattle.block_flows.specs.Events.{AreOfEvents};
ghost use Rattle.block_flows.specs.Firings.{acting, fires_here, fire_of, fire_in, TakenHere, TakenAt, IsFirstHere, IsFirstAmong};
ghost use Rattle.path_model.specs.CheckerModel.Choices.{scene};
ghost use Rattle.path_model.specs.CheckerModel.Happenings.{Function, Happening};
ghost use Rattle.path_model.specs.CheckerModel.Reports.{Checker};
ghost use Rattle.least_set.specs.Logs.{IsExactly, SomeGives};
ghost use Rattle.state_tuples.specs.RuleChoices.Values.{taken_of};
ghost use Rattle.block_flows.specs.TupleFlows.Moved.{AreObjects};

use crate::fronts::{copy_object, first, next};
use crate::idle_events::{is_within, leaves_all};
use crate::quiet_events::are_quiet;
use crate::sets::items;
use crate::tuple_flows::moved;
use indexmap::IndexSet;
use objects::Object;
use state_tuples::{EventRules, Fired, Tuple};
use std::alloc::{AllocError, Global};

/// A rule with an action that is taken.
#[derive(Drop)]
pub struct Firing<'r, 'm, 'a> {
    /// The number of the event at which it is, among those of the block, from 0.
    pub event: usize,
    /// The object that takes the rule; none where the global state does.
    pub object: Option<Object>,
    /// The rule, by the alternative by which it is taken.
    pub taken: &'r Fired<'m, 'a>,
}

// Only a rule with an action.
fn acting<'r, 'm, 'a>(taken: Option<&'r Fired<'m, 'a>>) -> Option<&'r Fired<'m, 'a>>
    ensures rule { option_map (λ t. taken_of t.now) result ≡ acting (option_map (λ t. taken_of t.now) taken.entry) }
    ensures same { IfSome result (λ t. taken.entry ≡ Some t) }
{
    let taken = taken?;
    match &taken.rule.action {
        Some(_) => Some(taken),
        None => None,
    }
}

// The rule with an action that a tuple behind the move takes: its object, or the global state where there is none.
fn acted<'r, 'm, 'a>(
    rules: &'r EventRules<'m, 'a>,
    is_root: bool,
    tuple: &Tuple,
) -> Option<&'r Fired<'m, 'a>>
    ensures rule { (c : Checker) (h : Happening) (f : Function) → AreOfEvent c.machine c.depth h f rules.now → option_map (λ t. taken_of t.now) result ≡ fires_here c h f is_root tuple.now }
    ensures first { (c : Checker) (h : Happening) (f : Function) → AreOfEvent c.machine c.depth h f rules.now → IfSome result (λ t. IsFirstFor (scene c.machine c.depth h f) h.event tuple.now.object t.now) }
{
    match &tuple.object {
        Some(object) => acting(rules.taken(is_root, tuple.global, object, tuple.state)),
        None => acting(rules.taken_global(is_root, tuple.global)),
    }
}

// Which of these tuples behind an event's move take a rule with an action.
fn fired_each<'r, 'm, 'a>(
    alloc: Global,
    rules: &'r EventRules<'m, 'a>,
    number: usize,
    is_root: bool,
    tuples: &[Tuple],
) -> Result<Vec<Firing<'r, 'm, 'a>>, AllocError>
    ensures rules { IfOk result (λ list. (c : Checker) (h : Happening) (f : Function) → AreOfEvent c.machine c.depth h f rules.now → map fire_in list.items ≡ filter_map (fire_of c h f is_root number) tuples.now) }
    ensures first { IfOk result (λ list. (c : Checker) (h : Happening) (f : Function) → AreOfEvent c.machine c.depth h f rules.now → All (IsFirstHere c h f number) list.items) }
{
    let mut list = Vec::new(alloc);
    for tuple in tuples {
        let Some(taken) = acted(rules, is_root, tuple) else {
            continue;
        };
        list.push(Firing {
            event: number,
            object: copy_object(&tuple.object),
            taken,
        })?;
    }
    Ok(list)
}

// The rules with an action that are taken at an event from a tuple that stands before it.
fn fired_from<'r, 'm, 'a>(
    alloc: Global,
    rules: &'r EventRules<'m, 'a>,
    number: usize,
    is_root: bool,
    tuple: &Tuple,
    followed: &IndexSet<Object>,
) -> Result<Vec<Firing<'r, 'm, 'a>>, AllocError>
    ensures rules { IfOk result (λ list. (c : Checker) (h : Happening) (f : Function) → AreOfEvent c.machine c.depth h f rules.now → AreObjects c.depth followed.now.keys → IsExactly (map fire_in list.items) (TakenHere c h f is_root followed.now.keys number tuple.now)) }
    ensures first { IfOk result (λ list. (c : Checker) (h : Happening) (f : Function) → AreOfEvent c.machine c.depth h f rules.now → All (IsFirstHere c h f number) list.items) }
{
    let setting = &rules.setting;
    let before = moved(
        alloc,
        &rules.event,
        setting.unit,
        setting.depth,
        tuple,
        followed,
    )?;
    fired_each(alloc, rules, number, is_root, before.as_slice())
}

// The same from one of these tuples.
fn fired_here<'r, 'm, 'a>(
    alloc: Global,
    rules: &'r EventRules<'m, 'a>,
    number: usize,
    is_root: bool,
    tuples: &[Tuple],
    followed: &IndexSet<Object>,
) -> Result<Vec<Firing<'r, 'm, 'a>>, AllocError>
    ensures rules { IfOk result (λ list. (c : Checker) (h : Happening) (f : Function) → AreOfEvent c.machine c.depth h f rules.now → AreObjects c.depth followed.now.keys → IsExactly (map fire_in list.items) (SomeGives (TakenHere c h f is_root followed.now.keys number) tuples.now)) }
    ensures first { IfOk result (λ list. (c : Checker) (h : Happening) (f : Function) → AreOfEvent c.machine c.depth h f rules.now → All (IsFirstHere c h f number) list.items) }
{
    let mut list = Vec::new(alloc);
    for tuple in tuples {
        let mut more = fired_from(alloc, rules, number, is_root, tuple, followed)?;
        list.append(&mut more)?;
    }
    Ok(list)
}

// The rules with an action that are taken while a tuple crosses events.
fn fired_on_the_way<'r, 'm, 'a>(
    alloc: Global,
    rules: &'r [EventRules<'m, 'a>],
    is_root: bool,
    tuple: &Tuple,
    followed: &IndexSet<Object>,
) -> Result<Vec<Firing<'r, 'm, 'a>>, AllocError>
    ensures rules { IfOk result (λ list. (c : Checker) (f : Function) (hs : List Happening) → AreOfEvents c.machine c.depth f hs rules.now → AreObjects c.depth followed.now.keys → IsExactly (map fire_in list.items) (TakenAt c hs f is_root followed.now.keys tuple.now)) }
    ensures first { IfOk result (λ list. (c : Checker) (f : Function) (hs : List Happening) → AreOfEvents c.machine c.depth f hs rules.now → All (IsFirstAmong c hs f) list.items) }
{
    let within = is_within(tuple, followed);
    let mut now = first(alloc, tuple)?;
    let mut list = Vec::new(alloc);
    for (number, event) in rules.iter().enumerate() {
        if leaves_all(event, within) {
            continue;
        }
        let left = items(&now);
        let mut more = fired_here(alloc, event, number, is_root, left, followed)?;
        list.append(&mut more)?;
        let behind = next(alloc, event, is_root, left, followed)?;
        now = behind;
    }
    Ok(list)
}

/// The rules with an action that are taken while this tuple crosses a block's events, in a root's own frame or in a called one: by which
/// object, or by the global state, and at which event. The rules are those of the events in their order; those that are followed are
/// objects at the depth of the rules. A report on the way is that of one of these. The alternative of each is the first of its rule's by
/// which the rule can be taken there.
pub fn firings<'r, 'm, 'a>(
    alloc: Global,
    rules: &'r [EventRules<'m, 'a>],
    is_root: bool,
    tuple: &Tuple,
    followed: &IndexSet<Object>,
) -> Result<Vec<Firing<'r, 'm, 'a>>, AllocError>
    ensures rules { IfOk result (λ list. (c : Checker) (f : Function) (hs : List Happening) → AreOfEvents c.machine c.depth f hs rules.now → AreObjects c.depth followed.now.keys → IsExactly (map fire_in list.items) (TakenAt c hs f is_root followed.now.keys tuple.now)) }
    ensures first { IfOk result (λ list. (c : Checker) (f : Function) (hs : List Happening) → AreOfEvents c.machine c.depth f hs rules.now → All (IsFirstAmong c hs f) list.items) }
{
    if are_quiet(rules) {
        return Ok(Vec::new(alloc));
    }
    fired_on_the_way(alloc, rules, is_root, tuple, followed)
}
