//! The faults of a rule, one by one.

ghost use Rattle.std.specs.Prelude.{◌≡◌, ◌++◌, not, filter, map, flat_map};
ghost use Rattle.metal_grammar.specs.Faults as faults;
ghost use Rattle.metal_grammar.specs.Rules.{is_among, variable_of, targets_of, callout_names_of, callout_names, all_callout_names, action_names_of, variables_of_states};
ghost use Rattle.metal_written.specs.Placed.{placed_view};
ghost use Rattle.metal_numbers.specs.MetalRules.RuleFaults.{first_of, unknown_callouts_in, another_named, needed, some_lacks, is_other, lacks_other, told_lacks, argument_names};
ghost use Rattle.metal_written.specs.Written.{item_view, rule_view, state_view, destination_view, alternative_view, identifier_view};

use crate::metal_rules::named::{
    action_names, callout_names, is_of, names_outside, pattern_names, some_callout_names,
    states_name,
};
use metal_written::{
    Destination, Identifier, PlacedRule, StateName, WrittenAlternative, WrittenCallout,
    WrittenItem, WrittenRule, has_end, hole_asked, is_among, is_spelled, row_of,
};
use mx_base::Names;

/// The name of an item's callout, if it is in no row of the table.
fn unknown_callout_of(names: &Names, item: &WrittenItem) -> Option<u32>
    ensures { result ≡ first_of (faults.unknown_callout_of names.now (item_view item.now)) }
{
    match item {
        WrittenItem::Callout { callout, .. } => match callout {
            WrittenCallout::Asked { name, .. } => match row_of(names, *callout) {
                None => Some(*name),
                Some(_) => None,
            },
            WrittenCallout::Digit { .. } => None,
        },
        _ => None,
    }
}

/// The name of the first callout of an alternative that is in no row of the table.
#[tactic(auto, using(crate::proofs::MetalRules::Firsts::firsts))]
fn unknown_callout_in(names: &Names, alternative: &WrittenAlternative) -> Option<u32>
    ensures { result ≡ first_of (unknown_callouts_in names.now (alternative_view alternative.now)) }
{
    for item in alternative.items {
        if let Some(name) = unknown_callout_of(names, item) {
            return Some(name);
        }
    }
    None
}

/// The name of the first callout of a rule that is in no row of the table.
#[tactic(auto, using(crate::proofs::MetalRules::Firsts::firsts))]
pub fn unknown_callout(names: &Names, rule: &WrittenRule) -> Option<u32>
    ensures { result ≡ first_of (faults.unknown_callouts names.now (rule_view rule.now)) }
{
    for alternative in rule.alternatives {
        if let Some(name) = unknown_callout_in(names, alternative) {
            return Some(name);
        }
    }
    None
}

/// Whether a rule names this, in its states or outside them.
#[tactic(auto, using(metal_written::proofs::Any::appended))]
fn rule_names(rule: &PlacedRule, name: u32) -> bool
    ensures { result ≡ is_among (faults.mentioned (placed_view rule.now)) name }
{
    states_name(rule, name) || names_outside(&rule.rule, name)
}

/// The first of these variables that a rule names.
#[tactic(auto, using(crate::proofs::MetalRules::Variables::chosen))]
fn first_named(variables: &[u32], rule: &PlacedRule) -> Option<u32>
    ensures { result ≡ first_of (filter (is_among (faults.mentioned (placed_view rule.now))) variables.now) }
{
    for variable in variables {
        if rule_names(rule, *variable) {
            return Some(*variable);
        }
    }
    None
}

/// Whether a rule names one of these variables that isn't this one.
#[tactic(auto, using(crate::proofs::MetalRules::Variables::chosen))]
fn names_other(variables: &[u32], rule: &PlacedRule, first: u32) -> bool
    ensures { result ≡ faults.any_of (another_named (faults.mentioned (placed_view rule.now)) first) variables.now }
{
    for variable in variables {
        if rule_names(rule, *variable) && *variable != first {
            return true;
        }
    }
    false
}

/// Whether a rule names two of these variables.
pub fn names_two_variables(variables: &[u32], rule: &PlacedRule) -> bool
    ensures { result ≡ faults.names_two_variables variables.now (placed_view rule.now) }
{
    match first_named(variables, rule) {
        None => false,
        Some(first) => names_other(variables, rule, first),
    }
}

/// Whether both are states of the machine, or of one variable.
fn are_alike(state: StateName, other: StateName) -> bool
    ensures { result ≡ faults.are_alike (state_view state) (state_view other) }
{
    match state {
        StateName::OfMachine { .. } => is_global(other),
        StateName::OfVariable { variable, .. } => is_of(other, variable),
    }
}

/// Whether an alternative of the rule stands at the end of a path.
#[tactic(auto, using(metal_written::proofs::Any::anys))]
fn some_end(rule: &WrittenRule) -> bool
    ensures { result ≡ faults.some_end (rule_view rule.now) }
{
    for alternative in rule.alternatives {
        if has_end(alternative) {
            return true;
        }
    }
    false
}

/// Whether a rule splits as it may not.
pub fn is_bad_split(rule: &WrittenRule) -> bool
    ensures { result ≡ faults.is_bad_split (rule_view rule.now) (destination_view rule.now.destination) }
{
    match rule.destination {
        Destination::To(_) => false,
        Destination::Split {
            on_true,
            on_false,
            ..
        } => rule.action.is_some() || some_end(rule) || !are_alike(on_true, on_false),
    }
}

/// Whether a state is one of a name that is no variable, or one of the machine that is named like a variable.
fn is_misnamed(variables: &[u32], state: StateName) -> bool
    ensures { result ≡ faults.is_misnamed variables.now (state_view state) }
{
    match state {
        StateName::OfMachine { state } => is_among(variables, state),
        StateName::OfVariable { variable, .. } => !is_among(variables, variable),
    }
}

/// Whether a target is misnamed.
fn leads_astray(variables: &[u32], destination: Destination) -> bool
    ensures { result ≡ faults.any_of (faults.is_misnamed variables.now) (targets_of (destination_view destination)) }
{
    match destination {
        Destination::To(target) => is_misnamed(variables, target),
        Destination::Split {
            on_true,
            on_false,
            ..
        } => is_misnamed(variables, on_true) || is_misnamed(variables, on_false),
    }
}

/// Whether it is the state `stop`, of the machine or of a variable.
pub fn is_stop(names: &Names, state: StateName) -> bool
    ensures { result ≡ faults.is_stop names.now (state_view state) }
{
    match state {
        StateName::OfMachine { state } | StateName::OfVariable { state, .. } => is_spelled(
            names, b"stop", state,
        ),
    }
}

/// Whether it is a state of the machine.
fn is_global(state: StateName) -> bool
    ensures { result ≡ faults.is_global (state_view state) }
{
    match state {
        StateName::OfMachine { .. } => true,
        StateName::OfVariable { .. } => false,
    }
}

/// Whether a target is a state of the machine.
fn some_global(destination: Destination) -> bool
    ensures { result ≡ faults.any_of faults.is_global (targets_of (destination_view destination)) }
{
    match destination {
        Destination::To(target) => is_global(target),
        Destination::Split {
            on_true,
            on_false,
            ..
        } => is_global(on_true) || is_global(on_false),
    }
}

/// Whether each target is a state of the machine.
fn all_global(destination: Destination) -> bool
    ensures { result ≡ not (faults.any_of (λ target. not (faults.is_global target)) (targets_of (destination_view destination))) }
{
    match destination {
        Destination::To(target) => is_global(target),
        Destination::Split {
            on_true,
            on_false,
            ..
        } => is_global(on_true) && is_global(on_false),
    }
}

/// Whether the rule names one of these variables outside its states.
#[tactic(auto, using(crate::proofs::MetalRules::Variables::chosen))]
fn names_variable(variables: &[u32], rule: &WrittenRule) -> bool
    ensures { result ≡ faults.names_variable variables.now (rule_view rule.now) }
{
    for variable in variables {
        if names_outside(rule, *variable) {
            return true;
        }
    }
    false
}

/// Whether a rule begins or ends where it may not.
pub fn is_bad_source(names: &Names, variables: &[u32], rule: &PlacedRule) -> bool
    ensures { result ≡ faults.is_bad_source names.now variables.now (placed_view rule.now) }
{
    let destination = rule.rule.destination;
    if is_misnamed(variables, rule.source) || leads_astray(variables, destination) {
        return true;
    }
    if is_stop(names, rule.source) {
        return true;
    }
    if !is_global(rule.source) {
        return some_global(destination);
    }
    all_global(destination) && names_variable(variables, &rule.rule)
}

/// Whether the states, a callout or the message of a rule need what this names.
#[tactic(auto, using(metal_written::proofs::Any::appended))]
fn needs(rule: &PlacedRule, name: u32) -> bool
    ensures { result ≡ is_among (needed (placed_view rule.now)) name }
{
    states_name(rule, name)
        || some_callout_names(&rule.rule, name)
        || action_names(rule.rule.action, name)
}

/// Whether the name is the variable of the source, which needs no pattern at the end of a path unless a callout there asks of it.
fn is_excused(source: StateName, alternative: &WrittenAlternative, name: u32) -> bool
    ensures { result ≡ faults.is_excused (state_view source) (alternative_view alternative.now) name }
{
    is_of(source, name) && has_end(alternative) && !callout_names(alternative, name)
}

/// Whether an alternative neither binds this name, which `is_hole` says is a hole or not, nor needs to.
#[tactic(auto, using(metal_written::proofs::Any::anys))]
fn some_lacks(rule: &PlacedRule, is_hole: bool, name: u32) -> bool
    ensures { result ≡ some_lacks is_hole (placed_view rule.now) name }
{
    for alternative in rule.rule.alternatives {
        let bound = is_hole && pattern_names(alternative, name);
        if !bound && !is_excused(rule.source, alternative, name) {
            return true;
        }
    }
    false
}

/// Whether the item is a callout that asks of a name that is no hole.
fn item_asks_of_other(holes: &[u32], item: &WrittenItem) -> bool
    ensures { result ≡ faults.any_of (is_other holes.now) (callout_names_of (item_view item.now)) }
{
    match item {
        WrittenItem::Callout { callout, .. } => match hole_asked(*callout) {
            Some(name) => !is_among(holes, name),
            None => false,
        },
        _ => false,
    }
}

/// Whether a callout of the alternative asks of a name that is no hole.
#[tactic(auto, using(crate::proofs::MetalRules::Members::gathered))]
fn alternative_asks_of_other(holes: &[u32], alternative: &WrittenAlternative) -> bool
    ensures { result ≡ faults.any_of (is_other holes.now) (callout_names (alternative_view alternative.now)) }
{
    for item in alternative.items {
        if item_asks_of_other(holes, item) {
            return true;
        }
    }
    false
}

/// Whether a callout of the rule asks of a name that is no hole. The alternative that asks doesn't bind it.
#[tactic(auto, using(crate::proofs::MetalRules::Members::gathered))]
fn asks_of_other(holes: &[u32], rule: &WrittenRule) -> bool
    ensures { result ≡ faults.any_of (is_other holes.now) (all_callout_names (rule_view rule.now)) }
{
    for alternative in rule.alternatives {
        if alternative_asks_of_other(holes, alternative) {
            return true;
        }
    }
    false
}

/// Whether an alternative lacks a name of the states or of the message that is no hole.
#[tactic(auto, using(crate::proofs::MetalRules::Lacking::others))]
fn lacks_other(holes: &[u32], rule: &PlacedRule) -> bool
    ensures { result ≡ faults.any_of (lacks_other holes.now (placed_view rule.now)) (variables_of_states (placed_view rule.now) ++ action_names_of (placed_view rule.now).rule.action) }
{
    state_lacks(holes, rule, rule.source) || targets_lack(holes, rule) || message_lacks(holes, rule)
}

/// Whether the name is no hole, and some alternative lacks it.
fn lacks_name(holes: &[u32], rule: &PlacedRule, name: u32) -> bool
    ensures { result ≡ lacks_other holes.now (placed_view rule.now) name }
{
    !is_among(holes, name) && some_lacks(rule, false, name)
}

/// Whether an alternative lacks the variable of this state, which is no hole.
fn state_lacks(holes: &[u32], rule: &PlacedRule, state: StateName) -> bool
    ensures { result ≡ faults.any_of (lacks_other holes.now (placed_view rule.now)) (variable_of (state_view state)) }
{
    match state {
        StateName::OfMachine { .. } => false,
        StateName::OfVariable { variable, .. } => lacks_name(holes, rule, variable),
    }
}

/// Whether an alternative lacks the variable of a target, which is no hole.
fn targets_lack(holes: &[u32], rule: &PlacedRule) -> bool
    ensures { result ≡ faults.any_of (lacks_other holes.now (placed_view rule.now)) (flat_map variable_of (targets_of (placed_view rule.now).rule.destination)) }
{
    match rule.rule.destination {
        Destination::To(target) => state_lacks(holes, rule, target),
        Destination::Split {
            on_true,
            on_false,
            ..
        } => state_lacks(holes, rule, on_true) || state_lacks(holes, rule, on_false),
    }
}

/// Whether the name is no hole and not the variable of the source, and some alternative lacks it.
fn argument_lacks(holes: &[u32], rule: &PlacedRule, name: u32) -> bool
    ensures { result ≡ told_lacks holes.now (placed_view rule.now) name }
{
    !is_of(rule.source, name) && lacks_name(holes, rule, name)
}

/// Whether these arguments of a message have such a name.
#[tactic(auto, using(metal_written::proofs::Any::anys))]
fn arguments_lack(holes: &[u32], rule: &PlacedRule, arguments: &[Identifier]) -> bool
    ensures { result ≡ faults.any_of (told_lacks holes.now (placed_view rule.now)) (argument_names (map identifier_view arguments.now)) }
{
    for argument in arguments {
        if argument_lacks(holes, rule, argument.name) {
            return true;
        }
    }
    false
}

/// Whether the message asks of a name that is no hole and not the variable of the source, and some alternative lacks it.
fn message_lacks(holes: &[u32], rule: &PlacedRule) -> bool
    ensures { result ≡ faults.any_of (told_lacks holes.now (placed_view rule.now)) (action_names_of (placed_view rule.now).rule.action) }
{
    match rule.rule.action {
        None => false,
        Some(told) => arguments_lack(holes, rule, told.arguments),
    }
}

/// Whether an alternative doesn't bind a name that the states, a callout or the message of the rule need. Each hole is asked
/// once, so that long rules take no longer than their length.
#[tactic(auto, using(crate::proofs::MetalRules::Variables::chosen))]
pub fn lacks_variable(holes: &[u32], rule: &PlacedRule) -> bool
    ensures { result ≡ faults.lacks_variable holes.now (placed_view rule.now) }
{
    for hole in holes {
        if needs(rule, *hole) && some_lacks(rule, true, *hole) {
            return true;
        }
    }
    asks_of_other(holes, &rule.rule) || lacks_other(holes, rule)
}
