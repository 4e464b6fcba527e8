//! The alternatives that apply at an event, by number.

ghost use Rattle.std.specs.Prelude.{◌≡◌, is_some, map, IfOk};
ghost use Rattle.numbered_program.specs.EventTables.Alternatives.{alternative_row, bound_number, fired_row};
ghost use Rattle.flow_graph.specs.Values.{event_of};
ghost use Rattle.hole_matcher.specs.HoleBindings.Bindings.{binding_of};
ghost use Rattle.hole_matcher.specs.HoleBindings.Settings.{setting_in};
ghost use Rattle.state_tuples.specs.AppliedRules.Events.{applied_of};

use crate::event_tables::bound::bound_object;
use crate::event_tables::rule_ends::{numbered_source, numbered_target, target_at, variable_asked};
use crate::numbered_tuples::Numbering;
use hole_matcher::{Binding, Setting};
use row_flows::Applied;
use state_tuples::{EventRules, Fired};
use std::alloc::{AllocError, Global};

// The number of the object that a binding has for a variable.
fn bound_number(
    numbering: &Numbering,
    setting: &Setting,
    variable: Option<u8>,
    binding: &Binding,
) -> u32
    ensures { result ≡ bound_number numbering.now.objects.now.keys (setting_in setting.now) variable (binding_of binding.now) }
{
    let Some(variable) = variable else {
        return 0;
    };
    match bound_object(setting, variable, binding) {
        Some(object) => numbering.number(&object),
        None => 0,
    }
}

// Whether the rule of an alternative reports.
fn has_action(fired: &Fired) -> bool
    ensures { result ≡ is_some (applied_of fired.now).taken.rule.action }
{
    fired.rule.action.is_some()
}

// What is asked of an alternative that applies.
fn alternative_row(numbering: &Numbering, rules: &EventRules, fired: &Fired) -> Applied
    ensures { result ≡ alternative_row numbering.now.objects.now.keys numbering.now.states.now.states.keys (setting_in rules.now.setting) (event_of rules.now.event) (applied_of fired.now) }
{
    let target = target_at(&rules.event, &fired.rule.dest);
    let variable = variable_asked(fired.rule.source, target);
    Applied {
        rule: fired.rule.number,
        alternative: fired.alternative,
        source: numbered_source(numbering.states, fired.rule.source),
        target: numbered_target(numbering.states, target),
        object: bound_number(numbering, &rules.setting, variable, &fired.binding),
        has_action: has_action(fired),
    }
}

// What is asked of these.
fn rows_of(
    alloc: Global,
    numbering: &Numbering,
    rules: &EventRules,
    applied: &[Fired],
) -> Result<Vec<Applied>, AllocError>
    ensures { IfOk result (λ rows. rows.items ≡ map (fired_row numbering.now.objects.now.keys numbering.now.states.now.states.keys (setting_in rules.now.setting) (event_of rules.now.event)) applied.now) }
{
    let mut rows = Vec::with_capacity(alloc, applied.len())?;
    for fired in applied {
        rows.push(alternative_row(numbering, rules, fired))?;
    }
    Ok(rows)
}

/// What is asked of the alternatives that apply at an event, in the order of the rules and then of their alternatives.
pub(crate) fn alternative_rows(
    alloc: Global,
    numbering: &Numbering,
    rules: &EventRules,
) -> Result<Vec<Applied>, AllocError>
    ensures { IfOk result (λ rows. rows.items ≡ map (fired_row numbering.now.objects.now.keys numbering.now.states.now.states.keys (setting_in rules.now.setting) (event_of rules.now.event)) rules.now.applied.items) }
{
    rows_of(alloc, numbering, rules, rules.applied.as_slice())
}
