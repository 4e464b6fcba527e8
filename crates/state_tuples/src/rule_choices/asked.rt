//! Who is asked whether it takes a rule.

ghost use Rattle.std.specs.Prelude.{◌≡◌, None};
ghost use Rattle.flow_graph.specs.Values.{event_of};
ghost use Rattle.hole_matcher.specs.HoleBindings.Bindings.{binding_of};
ghost use Rattle.hole_matcher.specs.HoleBindings.Settings.{setting_in};
ghost use Rattle.metal_tree.specs.Views.{rule_view};
ghost use Rattle.state_tuples.specs.RuleChoices.Asked.{ObjectIn, may_take, fits};
ghost use Rattle.state_tuples.specs.RuleChoices.Values.{asker_of};

use crate::bound::binds;
use crate::targets::{from_global, from_object, is_exit, leads_to_global, target_at, variable_of};
use flow_graph::Event;
use hole_matcher::{Binding, Setting};
use metal_tree::Rule;
use objects::Object;

/// Who is asked whether it takes a rule.
#[derive(Clone, Copy)]
pub enum Asked<'o> {
    /// The global state.
    Global,
    /// An object whose state is unknown.
    Unknown(&'o Object),
    /// An object in a state: that of a variable, with this number.
    Known {
        object: &'o Object,
        state: (u8, u16),
    },
}

/// Whether a rule begins and leads where who is asked may take it, whatever matches.
pub fn may_take(event: &Event, global: u16, asked: Asked, rule: &Rule) -> bool
    ensures { result ≡ may_take (event_of event.now) global (asker_of asked.entry) (rule_view rule.now) }
{
    match asked {
        Asked::Global => {
            from_global(global, rule.source) && leads_to_global(target_at(event, &rule.dest))
        }
        Asked::Unknown(_) => {
            from_global(global, rule.source) && !leads_to_global(target_at(event, &rule.dest))
        }
        Asked::Known { state, .. } => from_object(state, rule.source),
    }
}

// Whether a binding has an unknown object for the variable of whose object a rule's target speaks.
fn fits_unknown(
    setting: &Setting,
    event: &Event,
    object: &Object,
    rule: &Rule,
    binding: &Binding,
) -> bool
    ensures { result ≡ fits (setting_in setting.now) (event_of event.now) (ObjectIn object.now None) (rule_view rule.now) (binding_of binding.now) }
{
    match variable_of(target_at(event, &rule.dest)) {
        Some(variable) => binds(setting, variable, object, binding),
        None => false,
    }
}

/// Whether who is asked takes a rule with this binding.
pub fn fits(setting: &Setting, event: &Event, asked: Asked, rule: &Rule, binding: &Binding) -> bool
    ensures { result ≡ fits (setting_in setting.now) (event_of event.now) (asker_of asked.entry) (rule_view rule.now) (binding_of binding.now) }
{
    match asked {
        Asked::Global => true,
        Asked::Unknown(object) => fits_unknown(setting, event, object, rule, binding),
        Asked::Known { object, state } => {
            is_exit(event) || binds(setting, state.0, object, binding)
        }
    }
}
