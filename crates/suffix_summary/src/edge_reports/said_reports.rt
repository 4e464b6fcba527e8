//! The reports that firings say.

ghost use Rattle.std.specs.Prelude.{◌≡◌, ◌≤◌, ℕ, List, true, map, length, IfOk, slice_get};
ghost use Rattle.std.specs.List.{filter_map};
ghost use Rattle.std.specs.Option.{option_copied};
ghost use Rattle.block_flows.specs.Events.{AreOfEvents};
ghost use Rattle.flow_graph.specs.CPaths.Events.{Event};
ghost use Rattle.hole_matcher.specs.HoleMessages.Sources.{maybe_object};
ghost use Rattle.metal_tree.specs.Whole.{machine_view};
ghost use Rattle.path_model.specs.CheckerModel.Happenings.{Function};
ghost use Rattle.path_model.specs.CheckerModel.Reports.{report_of};
ghost use Rattle.row_flows.specs.Numbers.{item_numbered};
ghost use Rattle.state_tuples.specs.AppliedRules.Events.{AreOfEvent};
ghost use Rattle.state_tuples.specs.Numbers.{IsRuleOf};
ghost use Rattle.state_tuples.specs.RuleChoices.Values.{taken_of};
ghost use Rattle.state_tuples.specs.TransitionReports.TakenRules.{checker_at};
ghost use Rattle.state_tuples.specs.Values.{happening_in};
ghost use Rattle.suffix_summary.specs.EdgeReports.Said.{happening_at, said, said_at};

use indexmap::IndexSet;
use metal_tree::Machine;
use objects::Object;
use report_model::Report;
use row_flows::Firing;
use state_tuples::{Checker, EventRules, Fired, report_of};
use std::alloc::{AllocError, Global};
use typed_unit::TypedUnit;

// Whether a machine has a rule with this number.
fn has_rule(machine: &Machine, number: u16) -> bool
    ensures low { result ≡ true → 1 ≤ number }
    ensures high { result ≡ true → number ≤ length machine.now.rules.now }
    ensures all { 1 ≤ number → number ≤ length machine.now.rules.now → result ≡ true }
{
    1 <= number && number as usize <= machine.rules.len()
}

// The report of an alternative of a rule that is taken at an event of a unit, by an object or by the global state.
fn report_by(
    alloc: Global,
    checker: &Checker,
    unit: &TypedUnit,
    event: &EventRules,
    object: Option<&Object>,
    fired: &Fired,
) -> Result<Option<Report>, AllocError>
    ensures { (depth : ℕ) (f : Function) → IsRuleOf checker.now.machine.now fired.now.rule.now → IfOk result (λ report. report ≡ report_of (checker_at checker.now depth) (happening_in unit.now event.now.event) f (maybe_object object.entry) (taken_of fired.now)) }
{
    let number = fired.rule.number;
    if !has_rule(checker.machine, number) {
        return Ok(None);
    }
    report_of(
        alloc,
        checker,
        unit,
        &event.event,
        object,
        number,
        &fired.binding,
    )
}

// The object with a number; none where the number is that of no object.
fn object_numbered(followed: &IndexSet<Object>, number: u32) -> Option<&Object>
    ensures { option_copied result ≡ item_numbered followed.now.keys number }
{
    if number == 0 {
        return None;
    }
    followed.get_index(number as usize - 1)
}

// The alternative at a place among those that apply at an event.
fn applied_at<'r, 'm, 'a>(event: &'r EventRules<'m, 'a>, place: usize) -> Option<&'r Fired<'m, 'a>>
    ensures { option_copied result ≡ slice_get event.now.applied.items place }
{
    event.applied.get(place)
}

// What a firing says at this event of a unit, if it says anything.
fn said_at(
    alloc: Global,
    checker: &Checker,
    unit: &TypedUnit,
    followed: &IndexSet<Object>,
    event: &EventRules,
    firing: &Firing,
) -> Result<Option<Report>, AllocError>
    ensures { (depth : ℕ) (f : Function) (e : Event) → AreOfEvent (machine_view checker.now.machine.now) depth (happening_at unit.now e) f event.now → IfOk result (λ report. report ≡ said_at (checker_at checker.now depth) f followed.now.keys firing.now (happening_at unit.now e)) }
{
    let Some(fired) = applied_at(event, firing.place) else {
        return Ok(None);
    };
    let object = object_numbered(followed, firing.object);
    report_by(alloc, checker, unit, event, object, fired)
}

// The rules of the event with a number, if there is one.
fn rules_of<'r, 'm, 'a>(
    rules: &'r [EventRules<'m, 'a>],
    event: usize,
) -> Option<&'r EventRules<'m, 'a>>
    ensures { option_copied result ≡ slice_get rules.now event }
{
    rules.get(event)
}

// What a firing says at these events of a unit, if it says anything.
fn said_by(
    alloc: Global,
    checker: &Checker,
    unit: &TypedUnit,
    followed: &IndexSet<Object>,
    rules: &[EventRules],
    firing: &Firing,
) -> Result<Option<Report>, AllocError>
    ensures { (depth : ℕ) (f : Function) (es : List Event) → AreOfEvents (machine_view checker.now.machine.now) depth f (map (happening_at unit.now) es) rules.now → IfOk result (λ report. report ≡ said (checker_at checker.now depth) f followed.now.keys (map (happening_at unit.now) es) firing.now) }
{
    let Some(event) = rules_of(rules, firing.event) else {
        return Ok(None);
    };
    said_at(alloc, checker, unit, followed, event, firing)
}

/// What these firings say at events of a unit. The rules are those of the events in their order, and these objects are followed there.
pub(crate) fn said_by_all(
    alloc: Global,
    checker: &Checker,
    unit: &TypedUnit,
    followed: &IndexSet<Object>,
    rules: &[EventRules],
    firings: &[Firing],
) -> Result<Vec<Report>, AllocError>
    ensures { IfOk result (λ list. (depth : ℕ) (f : Function) (es : List Event) → AreOfEvents (machine_view checker.now.machine.now) depth f (map (happening_at unit.now) es) rules.now → list.items ≡ filter_map (said (checker_at checker.now depth) f followed.now.keys (map (happening_at unit.now) es)) firings.now) }
{
    let mut reports = Vec::new(alloc);
    for firing in firings {
        let spoken = said_by(alloc, checker, unit, followed, rules, firing)?;
        let Some(report) = spoken else {
            continue;
        };
        reports.push(report)?;
    }
    Ok(reports)
}
