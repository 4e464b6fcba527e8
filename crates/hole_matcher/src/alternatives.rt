//! Alternatives of rules: base patterns that are matched in one binding, and the callouts on it.

ghost use Rattle.std.specs.Prelude.{◌≡◌, ◌↔◌, ◌≤◌, ℕ, length, map, slice_get, Some};
ghost use Rattle.std.specs.Option.{option_map};
ghost use Rattle.hole_matcher.specs.HoleBindings.Bindings.{binding_of, behind};
ghost use Rattle.hole_matcher.specs.HoleBindings.Settings.{setting_in};
ghost use Rattle.hole_matcher.specs.Items.{matched_item, item_holds};
ghost use Rattle.hole_matching.specs.Alternatives.{matched_bases, all_hold, matched_alternative};
ghost use Rattle.hole_matching.specs.Callouts.{holds};
ghost use Rattle.hole_matching.specs.MachineMatches.{RuleMatches, matched_rule, setting_of};
ghost use Rattle.hole_matching.specs.Matching.{Binding as Seen};
ghost use Rattle.metal_tree.specs.Views.{callout_view, item_view, items_view};
ghost use Rattle.metal_tree.specs.Whole.{machine_view};
ghost use Rattle.objects.specs.Units.{facts_in};
ghost use Rattle.c_tree.specs.PathSubjects.Values.{subject_of};

use crate::hole_bindings::{Binding, Setting, holds};
use crate::walk::match_tree;
use c_tree::Subject;
use hole_matching::alternatives_are_matched;
use metal_tree::{Alternative, Callout, Item, Machine, Rule};
use typed_unit::TypedUnit;

// Goes on over an item, if it is a base pattern.
fn match_item<'a>(
    setting: &Setting<'_, 'a>,
    item: &Item,
    subject: Subject<'a>,
    into: &mut Binding<'a>,
) -> bool
    ensures { behind result (binding_of into.new) ≡ matched_item (setting_in setting.now) (item_view item.now) (subject_of subject.entry) (binding_of into.old) }
{
    match item {
        Item::Base(pattern) => match_tree(setting, pattern, subject, into),
        Item::Call(_) => true,
        Item::EndOfPath => true,
    }
}

// Goes on over the base patterns among these items.
#[tactic(auto, using(crate::proofs::ItemSteps::bases_next, crate::proofs::ItemSteps::bases_stop, crate::proofs::ItemSteps::bases_end))]
fn match_bases<'a>(
    setting: &Setting<'_, 'a>,
    items: &[Item],
    subject: Subject<'a>,
    into: &mut Binding<'a>,
) -> bool
    ensures { behind result (binding_of into.new) ≡ matched_bases (setting_in setting.now) (map item_view items.now) (subject_of subject.entry) (binding_of into.old) }
{
    for item in items {
        if !match_item(setting, item, subject, into) {
            return false;
        }
    }
    true
}

// Whether an item holds, if it is a callout.
fn item_holds(setting: &Setting, item: &Item, binding: &Binding) -> bool
    ensures { result ≡ item_holds (setting_in setting.now) (item_view item.now) (binding_of binding.now) }
{
    match item {
        Item::Base(_) => true,
        Item::Call(call) => holds(setting, call, binding),
        Item::EndOfPath => true,
    }
}

/// Whether the callouts among the items of an alternative hold of a binding.
#[tactic(auto, using(crate::proofs::ItemSteps::hold_next, crate::proofs::ItemSteps::hold_stop, crate::proofs::ItemSteps::hold_end))]
pub fn all_hold(setting: &Setting, items: &[Item], binding: &Binding) -> bool
    ensures { result ≡ all_hold (setting_in setting.now) (map item_view items.now) (binding_of binding.now) }
{
    for item in items {
        if !item_holds(setting, item, binding) {
            return false;
        }
    }
    true
}

// An alternative of a rule, counted from 0.
#[tactic(auto, using(crate::proofs::ItemSteps::alternative_at))]
fn alternative_of<'s>(rule: &Rule<'s>, alternative: u32) -> Option<Alternative<'s>>
    ensures { option_map items_view result ≡ slice_get (map items_view rule.now.pattern.alternatives.now) alternative }
{
    rule.pattern.alternatives.get(alternative as usize).copied()
}

/// The binding with which an alternative of these items matches a subject.
pub fn match_items<'a>(
    setting: &Setting<'_, 'a>,
    items: &[Item],
    subject: Subject<'a>,
) -> Option<Binding<'a>>
    ensures { option_map binding_of result ≡ matched_alternative (setting_in setting.now) (map item_view items.now) (subject_of subject.entry) }
{
    let mut binding = Binding::new();
    if match_bases(setting, items, subject, &mut binding) && all_hold(setting, items, &binding) {
        Some(binding)
    } else {
        None
    }
}

/// The binding with which an alternative of a rule, counted from 0, matches a subject that stands in a function of this name. A
/// state variable takes what has an object of at most `depth` steps.
pub fn matches<'a>(
    machine: &Machine,
    rule: u16,
    alternative: u32,
    subject: Subject<'a>,
    unit: &TypedUnit<'a>,
    function: u32,
    depth: u8,
) -> Option<Binding<'a>>
    requires low { 1 ≤ rule }
    requires high { rule ≤ length machine.now.rules.now }
    requires depth { depth ≤ 8 }
    ensures matches { (b : Seen) → (option_map binding_of result ≡ Some b) ↔ RuleMatches (machine_view machine.now) rule alternative (facts_in unit.now) depth function (subject_of subject.entry) b }
    ensures binding { option_map binding_of result ≡ matched_rule (machine_view machine.now) rule alternative (facts_in unit.now) depth function (subject_of subject.entry) }
{
    alternatives_are_matched();
    let setting = Setting::new(machine, unit, function, depth);
    match alternative_of(machine.rule(rule), alternative) {
        Some(found) => match_items(&setting, found.items, subject),
        None => None,
    }
}

/// Whether a callout of a machine holds of a binding, in a function of this name.
pub fn callout(
    machine: &Machine,
    call: &Callout,
    binding: &Binding,
    unit: &TypedUnit,
    function: u32,
) -> bool
    ensures { (depth : ℕ) → result ≡ holds (setting_of (machine_view machine.now) (facts_in unit.now) depth function) (callout_view call.now) (binding_of binding.now) }
{
    let setting = Setting::new(machine, unit, function, 8);
    holds(&setting, call, binding)
}
