//! Machines: all of a checker.

ghost use Rattle.std.specs.Prelude.{◌≡◌, ◌≤◌, length, Some};
ghost use Rattle.metal_tree.specs.MetalMachines.Rules.{rule_numbered};
ghost use Rattle.metal_tree.specs.Views.{rule_view, rule_views};
ghost use Rattle.metal_tree.specs.Parts.{machine_of};
ghost use Rattle.metal_tree.specs.MetalMachines.Kept.{IsKept};
ghost use Rattle.metal_tree.specs.Facts.{IsKept-prop};

use crate::holes::HoleDecl;
use crate::metal_machines::rules_are_found;
use crate::rules::Rule;
use crate::states::States;

/// A checker that was read. It has no fault: each number in it names a hole, a variable or a state that it has, and its rules
/// say of one variable at most what they say.
#[derive(Clone, Copy)]
pub struct Machine<'a> {
    /// The number of its name in the table of names.
    pub name: u32,
    /// The number of its state variables.
    pub variables: u8,
    /// Its holes, at most 16, the state variables first.
    pub holes: &'a [HoleDecl<'a>],
    /// The names of its own states from number 2 on; 0 is `start` and 1 is `stop`.
    pub globals: &'a [u32],
    /// The states of each variable.
    pub states: &'a [States<'a>],
    /// Its rules, numbered from 1.
    pub rules: &'a [Rule<'a>],
    ghost kept: { IsKept (machine_of name variables holes.now globals.now states.now rules.now) } by { IsKept-prop _ },
}

impl<'a> Machine<'a> {
    /// The rule with a number.
    pub fn rule(&self, number: u16) -> &'a Rule<'a>
        requires low { 1 ≤ number }
        requires high { number ≤ length self.now.rules.now }
        ensures { rule_numbered number (rule_views self.now.rules.now) ≡ Some (rule_view result.now) }
    {
        rules_are_found();
        &self.rules[number as usize - 1]
    }
}
