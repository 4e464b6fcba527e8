//! The first of the rules that is taken, and the first of its alternatives.

ghost use Rattle.std.specs.Prelude.{◌≡◌, IfSome};
ghost use Rattle.std.specs.Option.{option_map};
ghost use Rattle.path_model.specs.CheckerModel.Choices.{first_some, by_alternative};
ghost use Rattle.flow_graph.specs.Values.{event_of};
ghost use Rattle.hole_matcher.specs.HoleBindings.Settings.{setting_in};
ghost use Rattle.metal_tree.specs.Views.{items_view, rule_view, rule_views};
ghost use Rattle.state_tuples.specs.RuleChoices.Asked.{fits, by_items, asked_rule};
ghost use Rattle.state_tuples.specs.RuleChoices.Firsts.{IsByFirst};
ghost use Rattle.state_tuples.specs.RuleChoices.Values.{asker_of, taken_of, taken_by};

use crate::alternatives::alternative_applies;
use crate::rule_choices::asked::{Asked, fits, may_take};
use crate::rule_choices::fired::Fired;
use flow_graph::Event;
use hole_matcher::{Binding, Setting};
use metal_tree::{Alternative, Rule};

// The binding with which a rule is taken by an alternative.
fn by_items<'a>(
    setting: &Setting<'_, 'a>,
    event: &Event<'a>,
    asked: Asked,
    rule: &Rule,
    alternative: &Alternative,
) -> Option<Binding<'a>>
    ensures { option_map (taken_by rule.now) result ≡ by_items (setting_in setting.now) (event_of event.now) (asker_of asked.entry) (rule_view rule.now) (items_view alternative.now) }
{
    let binding = alternative_applies(setting, event, &rule.dest, alternative.items)?;
    if fits(setting, event, asked, rule, &binding) {
        Some(binding)
    } else {
        None
    }
}

// A rule that begins and leads where it has to is taken by the first alternative that applies with a binding that fits.
fn by_alternative<'m, 'a>(
    setting: &Setting<'_, 'a>,
    event: &Event<'a>,
    asked: Asked,
    rule: &'m Rule<'m>,
) -> Option<Fired<'m, 'a>>
    ensures taken { option_map taken_of result ≡ by_alternative (setting_in setting.now) (event_of event.now) (rule_view rule.now) (fits (setting_in setting.now) (event_of event.now) (asker_of asked.entry) (rule_view rule.now)) }
    ensures first { IfSome result (IsByFirst (setting_in setting.now) (event_of event.now) (asker_of asked.entry)) }
{
    for (number, alternative) in rule.pattern.alternatives.iter().enumerate() {
        if let Some(binding) = by_items(setting, event, asked, rule, alternative) {
            return Some(Fired {
                rule,
                alternative: number,
                binding,
            });
        }
    }
    None
}

// Whether and how a rule is taken. No alternative is matched where it doesn't begin or lead where it has to.
#[tactic(auto, using(crate::proofs::RuleChoices::AskedRules::is_taken, crate::proofs::RuleChoices::AskedRules::is_not_taken))]
fn taken_rule<'m, 'a>(
    setting: &Setting<'_, 'a>,
    event: &Event<'a>,
    global: u16,
    asked: Asked,
    rule: &'m Rule<'m>,
) -> Option<Fired<'m, 'a>>
    ensures taken { option_map taken_of result ≡ asked_rule (setting_in setting.now) (event_of event.now) global (asker_of asked.entry) (rule_view rule.now) }
    ensures first { IfSome result (IsByFirst (setting_in setting.now) (event_of event.now) (asker_of asked.entry)) }
{
    if may_take(event, global, asked, rule) {
        by_alternative(setting, event, asked, rule)
    } else {
        None
    }
}

/// The first of these rules that is taken.
pub fn first_rule<'m, 'a>(
    setting: &Setting<'_, 'a>,
    event: &Event<'a>,
    global: u16,
    asked: Asked,
    rules: &'m [Rule<'m>],
) -> Option<Fired<'m, 'a>>
    ensures taken { option_map taken_of result ≡ first_some (asked_rule (setting_in setting.now) (event_of event.now) global (asker_of asked.entry)) (rule_views rules.now) }
    ensures first { IfSome result (IsByFirst (setting_in setting.now) (event_of event.now) (asker_of asked.entry)) }
{
    for rule in rules {
        if let Some(fired) = taken_rule(setting, event, global, asked, rule) {
            return Some(fired);
        }
    }
    None
}
