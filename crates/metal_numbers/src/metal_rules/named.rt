//! Whether a rule names something, and where: in its states, patterns, callouts or message.

ghost use Rattle.std.specs.Prelude.{◌≡◌, ◌++◌, map, flat_map};
ghost use Rattle.metal_grammar.specs.Rules.{is_among, variable_of, targets_of, pattern_names_of, callout_names_of, pattern_names, callout_names, all_pattern_names, all_callout_names, action_names_of, variables_of_states};
ghost use Rattle.metal_numbers.specs.MetalRules.RuleFaults.{argument_names};
ghost use Rattle.metal_written.specs.Placed.{placed_view};
ghost use Rattle.metal_written.specs.Written.{item_view, alternative_view, rule_view, state_view, destination_view, identifier_view, maybe_action_view};

use metal_written::{
    Destination, Identifier, PlacedRule, StateName, WrittenAction, WrittenAlternative, WrittenItem,
    WrittenRule, hole_asked, mentions,
};

/// Whether the state is one of this variable.
pub fn is_of(state: StateName, variable: u32) -> bool
    ensures { result ≡ is_among (variable_of (state_view state)) variable }
{
    match state {
        StateName::OfMachine { .. } => false,
        StateName::OfVariable { variable: of, .. } => of == variable,
    }
}

/// Whether a target is a state of this variable.
#[tactic(auto, using(metal_written::proofs::Any::appended))]
fn leads_to(destination: Destination, variable: u32) -> bool
    ensures { result ≡ is_among (flat_map variable_of (targets_of (destination_view destination))) variable }
{
    match destination {
        Destination::To(target) => is_of(target, variable),
        Destination::Split {
            on_true,
            on_false,
            ..
        } => is_of(on_true, variable) || is_of(on_false, variable),
    }
}

/// Whether the source or a target is a state of this variable.
#[tactic(auto, using(metal_written::proofs::Any::appended))]
pub fn states_name(rule: &PlacedRule, variable: u32) -> bool
    ensures { result ≡ is_among (variables_of_states (placed_view rule.now)) variable }
{
    is_of(rule.source, variable) || leads_to(rule.rule.destination, variable)
}

/// Whether the item is a pattern that names this.
fn item_mentions(item: &WrittenItem, name: u32) -> bool
    ensures { result ≡ is_among (pattern_names_of (item_view item.now)) name }
{
    match item {
        WrittenItem::Pattern { tree, .. } => mentions(tree, name),
        _ => false,
    }
}

/// Whether a pattern of the alternative names this.
#[tactic(auto, using(crate::proofs::MetalRules::Members::gathered))]
pub fn pattern_names(alternative: &WrittenAlternative, name: u32) -> bool
    ensures { result ≡ is_among (pattern_names (alternative_view alternative.now)) name }
{
    for item in alternative.items {
        if item_mentions(item, name) {
            return true;
        }
    }
    false
}

/// Whether the item is a callout that asks of this.
fn item_asks(item: &WrittenItem, name: u32) -> bool
    ensures { result ≡ is_among (callout_names_of (item_view item.now)) name }
{
    match item {
        WrittenItem::Callout { callout, .. } => match hole_asked(*callout) {
            Some(hole) => hole == name,
            None => false,
        },
        _ => false,
    }
}

/// Whether a callout of the alternative asks of this.
#[tactic(auto, using(crate::proofs::MetalRules::Members::gathered))]
pub fn callout_names(alternative: &WrittenAlternative, name: u32) -> bool
    ensures { result ≡ is_among (callout_names (alternative_view alternative.now)) name }
{
    for item in alternative.items {
        if item_asks(item, name) {
            return true;
        }
    }
    false
}

/// Whether a pattern of the rule names this.
#[tactic(auto, using(crate::proofs::MetalRules::Members::gathered))]
fn some_pattern_names(rule: &WrittenRule, name: u32) -> bool
    ensures { result ≡ is_among (all_pattern_names (rule_view rule.now)) name }
{
    for alternative in rule.alternatives {
        if pattern_names(alternative, name) {
            return true;
        }
    }
    false
}

/// Whether a callout of the rule asks of this.
#[tactic(auto, using(crate::proofs::MetalRules::Members::gathered))]
pub fn some_callout_names(rule: &WrittenRule, name: u32) -> bool
    ensures { result ≡ is_among (all_callout_names (rule_view rule.now)) name }
{
    for alternative in rule.alternatives {
        if callout_names(alternative, name) {
            return true;
        }
    }
    false
}

/// Whether an argument of a message has this name.
#[tactic(auto, using(metal_written::proofs::Any::anys))]
fn arguments_name(arguments: &[Identifier], name: u32) -> bool
    ensures { result ≡ is_among (argument_names (map identifier_view arguments.now)) name }
{
    for argument in arguments {
        if argument.name == name {
            return true;
        }
    }
    false
}

/// Whether the message of an action asks of this.
pub fn action_names(action: Option<WrittenAction>, name: u32) -> bool
    ensures { result ≡ is_among (action_names_of (maybe_action_view action.entry)) name }
{
    match action {
        None => false,
        Some(told) => arguments_name(told.arguments, name),
    }
}

/// Whether the rule names this outside its states.
#[tactic(auto, using(metal_written::proofs::Any::appended))]
pub fn names_outside(rule: &WrittenRule, name: u32) -> bool
    ensures { result ≡ is_among (all_pattern_names (rule_view rule.now) ++ all_callout_names (rule_view rule.now) ++ action_names_of (maybe_action_view rule.now.action)) name }
{
    some_pattern_names(rule, name)
        || some_callout_names(rule, name)
        || action_names(rule.action, name)
}
