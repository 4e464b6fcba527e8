//! The reports of rules that are taken on the way over a block's events.

ghost use Rattle.std.specs.Prelude.{◌≡◌, ◌≤◌, ℕ, List, true, map, length, Contains, IfOk, slice_get};
ghost use Rattle.std.specs.List.{filter_map};
ghost use Rattle.std.specs.Option.{option_copied};
ghost use Rattle.block_flows.specs.declared.taken_rules.Firing.{Firing as Fires};
ghost use Rattle.block_flows.specs.Events.{AreOfEvents};
ghost use Rattle.flow_graph.specs.CPaths.Events.{Event};
ghost use Rattle.path_model.specs.CheckerModel.Happenings.{Function};
ghost use Rattle.saturation.specs.EdgeReports.Said.{happening_at, said_by};
ghost use Rattle.metal_tree.specs.Whole.{machine_view};
ghost use Rattle.state_tuples.specs.Numbers.{IsRuleOf};
ghost use Rattle.state_tuples.specs.TransitionReports.TakenRules.{checker_at};

use block_flows::Firing;
use metal_tree::Machine;
use report_model::Report;
use state_tuples::{Checker, EventRules, report_of};
use std::alloc::{AllocError, Global};
use typed_unit::TypedUnit;

// Whether a machine has a rule with this number.
fn has_rule(machine: &Machine, number: u16) -> bool
    ensures low { result ≡ true → 1 ≤ number }
    ensures high { result ≡ true → number ≤ length machine.now.rules.now }
    ensures all { 1 ≤ number → number ≤ length machine.now.rules.now → result ≡ true }
{
    1 <= number && number as usize <= machine.rules.len()
}

// The rules of the event with a number, if there is one.
fn rules_of<'r, 'm, 'a>(
    rules: &'r [EventRules<'m, 'a>],
    event: usize,
) -> Option<&'r EventRules<'m, 'a>>
    ensures { option_copied result ≡ slice_get rules.now event }
{
    rules.get(event)
}

// The report of a rule that is taken at an event of a unit, if it has an action.
fn said_by(
    alloc: Global,
    checker: &Checker,
    unit: &TypedUnit,
    rules: &[EventRules],
    firing: &Firing,
) -> Result<Option<Report>, AllocError>
    ensures { (depth : ℕ) (f : Function) (es : List Event) → AreOfEvents (machine_view checker.now.machine.now) depth f (map (happening_at unit.now) es) rules.now → IsRuleOf checker.now.machine.now firing.now.taken.now.rule.now → IfOk result (λ report. report ≡ said_by (checker_at checker.now depth) f (map (happening_at unit.now) es) firing.now) }
{
    let number = firing.taken.rule.number;
    if !has_rule(checker.machine, number) {
        return Ok(None);
    }
    let Some(event) = rules_of(rules, firing.event) else {
        return Ok(None);
    };
    let object = firing.object.as_ref();
    report_of(
        alloc,
        checker,
        unit,
        &event.event,
        object,
        number,
        &firing.taken.binding,
    )
}

/// The reports of rules that are taken at events of a unit. The rules are those of the events in their order.
pub(crate) fn said_by_all(
    alloc: Global,
    checker: &Checker,
    unit: &TypedUnit,
    rules: &[EventRules],
    firings: &[Firing],
) -> Result<Vec<Report>, AllocError>
    ensures { IfOk result (λ list. (depth : ℕ) (f : Function) (es : List Event) → AreOfEvents (machine_view checker.now.machine.now) depth f (map (happening_at unit.now) es) rules.now → ((x : Fires) → Contains firings.now x → IsRuleOf checker.now.machine.now x.taken.now.rule.now) → list.items ≡ filter_map (said_by (checker_at checker.now depth) f (map (happening_at unit.now) es)) firings.now) }
{
    let mut reports = Vec::new(alloc);
    for firing in firings {
        let said = said_by(alloc, checker, unit, rules, firing)?;
        let Some(report) = said else {
            continue;
        };
        reports.push(report)?;
    }
    Ok(reports)
}
