//! Which alternatives of a checker's rules apply at an event.

ghost use Rattle.std.specs.Prelude.{◌≡◌, ◌≤◌, ◌++◌, map, IfOk};
ghost use Rattle.state_tuples.specs.AppliedRules.Applied.{applied_alternative, applied_rule, applied_at};
ghost use Rattle.state_tuples.specs.AppliedRules.Events.{applied_of, AreOfEvent};
ghost use Rattle.flow_graph.specs.Values.{event_of};
ghost use Rattle.hole_matcher.specs.HoleBindings.Settings.{setting_in};
ghost use Rattle.metal_tree.specs.Views.{items_view, rule_view, rule_views};
ghost use Rattle.metal_tree.specs.Whole.{machine_view};
ghost use Rattle.state_tuples.specs.Values.{happening_in, function_of};

use crate::alternatives::alternative_applies;
use crate::applied_rules::rules::EventRules;
use crate::frame::Frame;
use crate::rule_choices::Fired;
use flow_graph::Event;
use hole_matcher::Setting;
use metal_tree::{Alternative, Machine, Rule};
use std::alloc::{AllocError, Global};
use typed_unit::TypedUnit;

// Adds the alternative of a rule that has this number, from 0, if it applies.
fn add_alternative<'m, 'a>(
    setting: &Setting<'m, 'a>,
    event: &Event<'a>,
    rule: &'m Rule<'m>,
    number: usize,
    alternative: &Alternative,
    applied: &mut Vec<Fired<'m, 'a>>,
) -> Result<(), AllocError>
    ensures { IfOk result (λ _. map applied_of applied.new.items ≡ map applied_of applied.old.items ++ applied_alternative (setting_in setting.now) (event_of event.now) (rule_view rule.now) (number, items_view alternative.now)) }
{
    if let Some(binding) = alternative_applies(setting, event, &rule.dest, alternative.items) {
        applied.push(Fired {
            rule,
            alternative: number,
            binding,
        })?;
    }
    Ok(())
}

// Adds the alternatives of a rule that apply.
fn add_rule<'m, 'a>(
    setting: &Setting<'m, 'a>,
    event: &Event<'a>,
    rule: &'m Rule<'m>,
    applied: &mut Vec<Fired<'m, 'a>>,
) -> Result<(), AllocError>
    ensures { IfOk result (λ _. map applied_of applied.new.items ≡ map applied_of applied.old.items ++ applied_rule (setting_in setting.now) (event_of event.now) (rule_view rule.now)) }
{
    for (number, alternative) in rule.pattern.alternatives.iter().enumerate() {
        add_alternative(setting, event, rule, number, alternative, applied)?;
    }
    Ok(())
}

// The alternatives of these rules that apply.
fn applied_at<'m, 'a>(
    alloc: Global,
    setting: &Setting<'m, 'a>,
    event: &Event<'a>,
    rules: &'m [Rule<'m>],
) -> Result<Vec<Fired<'m, 'a>>, AllocError>
    ensures { IfOk result (λ list. map applied_of list.items ≡ applied_at (setting_in setting.now) (event_of event.now) (rule_views rules.now)) }
{
    let mut applied = Vec::new(alloc);
    for rule in rules {
        add_rule(setting, event, rule, &mut applied)?;
    }
    applied.shrink_to_fit();
    Ok(applied)
}

impl<'m, 'a> EventRules<'m, 'a> {
    /// Those of an event in a frame of this function, where objects have at most `depth` steps. The only fault is want of memory.
    pub fn new(
        alloc: Global,
        machine: &Machine<'m>,
        event: Event<'a>,
        unit: &'m TypedUnit<'a>,
        frame: &Frame,
        depth: u8,
    ) -> Result<EventRules<'m, 'a>, AllocError>
        requires { depth ≤ 8 }
        ensures { IfOk result (λ r. AreOfEvent (machine_view machine.now) depth (happening_in unit.now event.entry) (function_of frame.now) r) }
    {
        let setting = Setting::new(machine, unit, frame.name, depth);
        let applied = applied_at(alloc, &setting, &event, machine.rules)?;
        Ok(EventRules {
            setting,
            event,
            applied,
        })
    }
}
