//! The objects that the rules of an event bind: all of them, or those alone that begin in a global state.

ghost use Rattle.std.specs.Prelude.{◌≡◌, ◌↔◌, ◌++◌, ℕ, map, IfOk, Contains};
ghost use Rattle.std.specs.Option.{option_to_list};
ghost use Rattle.state_tuples.specs.AppliedRules.Bound.{objects_of, bound_with, begins_in, asked_with, bound_by, BindsFrom};
ghost use Rattle.state_tuples.specs.AppliedRules.Events.{applied_of, AreOfEvent};
ghost use Rattle.c_objects.specs.Objects.{Object as Seen};
ghost use Rattle.path_model.specs.CheckerModel.Choices.{variable_of, led_variables};
ghost use Rattle.path_model.specs.CheckerModel.Happenings.{Function, Happening};
ghost use Rattle.hole_matcher.specs.HoleBindings.Bindings.{binding_of};
ghost use Rattle.hole_matcher.specs.HoleBindings.Settings.{setting_in};
ghost use Rattle.hole_matching.specs.Alternatives.{bound_object};
ghost use Rattle.metal_tree.specs.MetalMachines.Machine.{Machine as Form};
ghost use Rattle.metal_tree.specs.Views.{source_view, target_view, dest_view};

use crate::applied_rules::rules::EventRules;
use crate::applied_rules::sources::RuleSources;
use crate::bound::bound_object;
use crate::rule_choices::Fired;
use crate::targets::variable_of;
use hole_matcher::{Binding, Setting};
use metal_tree::{Dest, Source, Target};
use objects::Object;
use std::alloc::{AllocError, Global};

// Adds the object of what a variable has taken, if it has taken one.
fn add_bound(
    setting: &Setting,
    variable: u8,
    binding: &Binding,
    objects: &mut Vec<Object>,
) -> Result<(), AllocError>
    ensures { IfOk result (λ _. objects.new.items ≡ objects.old.items ++ option_to_list (bound_object (setting_in setting.now) variable (binding_of binding.now))) }
{
    if let Some(object) = bound_object(setting, variable, binding) {
        objects.push(object)?;
    }
    Ok(())
}

// Adds the object of the variable to whose state a target leads, if it leads to one.
fn add_led(
    setting: &Setting,
    target: Target,
    binding: &Binding,
    objects: &mut Vec<Object>,
) -> Result<(), AllocError>
    ensures { IfOk result (λ _. objects.new.items ≡ objects.old.items ++ objects_of (setting_in setting.now) (binding_of binding.now) (option_to_list (variable_of (target_view target)))) }
{
    if let Some(variable) = variable_of(target) {
        add_bound(setting, variable, binding, objects)?;
    }
    Ok(())
}

// Adds the objects of the variables to whose states a rule leads.
fn add_targets(
    setting: &Setting,
    dest: &Dest,
    binding: &Binding,
    objects: &mut Vec<Object>,
) -> Result<(), AllocError>
    ensures { IfOk result (λ _. objects.new.items ≡ objects.old.items ++ objects_of (setting_in setting.now) (binding_of binding.now) (led_variables (dest_view dest.now))) }
{
    match dest {
        Dest::To(target) => add_led(setting, *target, binding, objects),
        Dest::Split { on_true, on_false } => {
            add_led(setting, *on_true, binding, objects)?;
            add_led(setting, *on_false, binding, objects)
        }
    }
}

// Adds what the state variables of a rule have taken.
fn add_fired(setting: &Setting, fired: &Fired, objects: &mut Vec<Object>) -> Result<(), AllocError>
    ensures { IfOk result (λ _. objects.new.items ≡ objects.old.items ++ bound_with (setting_in setting.now) (applied_of fired.now)) }
{
    match fired.rule.source {
        Source::Global(_) => add_targets(setting, &fired.rule.dest, &fired.binding, objects),
        Source::Object { variable, .. } => add_bound(setting, variable, &fired.binding, objects),
    }
}

// Whether a rule with this source is asked.
fn begins_in(sources: RuleSources, source: &Source) -> bool
    ensures { result ≡ begins_in sources (source_view source.now) }
{
    match sources {
        RuleSources::AnyState => true,
        RuleSources::GlobalStates => match source {
            Source::Global(_) => true,
            Source::Object { .. } => false,
        },
    }
}

// Adds what the state variables of a rule have taken, if it is asked.
fn add_asked(
    setting: &Setting,
    sources: RuleSources,
    fired: &Fired,
    objects: &mut Vec<Object>,
) -> Result<(), AllocError>
    ensures { IfOk result (λ _. objects.new.items ≡ objects.old.items ++ asked_with sources (setting_in setting.now) (applied_of fired.now)) }
{
    if begins_in(sources, &fired.rule.source) {
        add_fired(setting, fired, objects)
    } else {
        Ok(())
    }
}

// The objects that those of these alternatives bind that are asked.
fn bound_by(
    alloc: Global,
    setting: &Setting,
    sources: RuleSources,
    applied: &[Fired],
) -> Result<Vec<Object>, AllocError>
    ensures { IfOk result (λ list. list.items ≡ bound_by sources (setting_in setting.now) (map applied_of applied.now)) }
{
    let mut objects = Vec::new(alloc);
    for fired in applied {
        add_asked(setting, sources, fired, &mut objects)?;
    }
    Ok(objects)
}

impl<'m, 'a> EventRules<'m, 'a> {
    /// The objects that the alternatives of rules bind that begin in these states: what the state variables of the rules have taken. One
    /// may stand there more than once.
    pub fn bound_objects(
        &self,
        alloc: Global,
        sources: RuleSources,
    ) -> Result<Vec<Object>, AllocError>
        ensures { IfOk result (λ list. (m : Form) (depth : ℕ) (h : Happening) (f : Function) → AreOfEvent m depth h f self.now → (o : Seen) → Contains list.items o ↔ BindsFrom sources m depth f h o) }
    {
        bound_by(alloc, &self.setting, sources, self.applied.as_slice())
    }
}
