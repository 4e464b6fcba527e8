//! The states of objects that the rules of a checker name, by number.

ghost use Rattle.std.specs.Prelude.{◌≡◌, ◌↔◌, ◌≤◌, ◌<◌, ◌++◌, ℕ, Some, IfOk, Contains, length};
ghost use Rattle.least_set.specs.Logs.{IsOnce};
ghost use Rattle.metal_tree.specs.Views.{dest_view, rule_view, rule_views, source_view, target_view};
ghost use Rattle.numbered_program.specs.NumberedTuples.Numbers.{if_numbered};
ghost use Rattle.numbered_program.specs.NumberedTuples.ObjectStates.{number_of_state, state_of_source, state_of_target, states_of_dest, states_of_rule, states_of_rules};
ghost use Rattle.path_model.specs.CheckerModel.Choices.{State};
ghost use Rattle.row_flows.specs.Numbers.{item_numbered};

use indexmap::IndexSet;
use metal_tree::{Dest, Machine, Rule, Source, Target};
use std::alloc::{AllocError, Global};

/// The states of objects that the rules of a checker name, each once. The first has the number 1, and 0 is the number of the state that is
/// unknown. A rule names three at most, so a `u16` has room for the numbers.
#[derive(Drop)]
pub struct ObjectStates {
    /// Each is that of a variable, with its number there.
    pub states: IndexSet<(u8, u16)>,
    ghost few: { length states.keys ≤ 3000 },
}

// Adds the state of an object in which a rule begins, if it begins in one.
fn add_source(named: &mut Vec<(u8, u16)>, source: Source) -> Result<(), AllocError>
    ensures { IfOk result (λ _. named.new.items ≡ named.old.items ++ state_of_source (source_view source)) }
{
    match source {
        Source::Global(_) => Ok(()),
        Source::Object { variable, state } => {
            named.push((variable, state))?;
            Ok(())
        }
    }
}

// Adds the state of an object to which a target leads, if it leads to one.
fn add_target(named: &mut Vec<(u8, u16)>, target: Target) -> Result<(), AllocError>
    ensures { IfOk result (λ _. named.new.items ≡ named.old.items ++ state_of_target (target_view target)) }
{
    match target {
        Target::Global(_) => Ok(()),
        Target::Object { variable, state } => {
            named.push((variable, state))?;
            Ok(())
        }
        Target::Unknown { .. } => Ok(()),
    }
}

// Adds the states of objects to which a rule leads.
fn add_dest(named: &mut Vec<(u8, u16)>, dest: &Dest) -> Result<(), AllocError>
    ensures { IfOk result (λ _. named.new.items ≡ named.old.items ++ states_of_dest (dest_view dest.now)) }
{
    match dest {
        Dest::To(target) => add_target(named, *target),
        Dest::Split { on_true, on_false } => {
            add_target(named, *on_true)?;
            add_target(named, *on_false)
        }
    }
}

// Adds the states of objects that a rule names.
fn add_rule(named: &mut Vec<(u8, u16)>, rule: &Rule) -> Result<(), AllocError>
    ensures { IfOk result (λ _. named.new.items ≡ named.old.items ++ states_of_rule (rule_view rule.now)) }
{
    add_source(named, rule.source)?;
    add_dest(named, &rule.dest)
}

// The states of objects that rules name, as often as they do.
fn named_states(alloc: Global, rules: &[Rule]) -> Result<Vec<(u8, u16)>, AllocError>
    ensures { IfOk result (λ list. list.items ≡ states_of_rules (rule_views rules.now)) }
{
    let mut named = Vec::new(alloc);
    for rule in rules {
        add_rule(&mut named, rule)?;
    }
    Ok(named)
}

// Each of these states once.
fn distinct(alloc: Global, named: &[(u8, u16)]) -> Result<IndexSet<(u8, u16)>, AllocError>
    ensures same { IfOk result (λ states. (x : State) → Contains states.keys x ↔ Contains named.now x) }
    ensures few { IfOk result (λ states. length states.keys ≤ length named.now) }
{
    let mut states = IndexSet::new(alloc);
    for state in named {
        states.insert(*state)?;
    }
    Ok(states)
}

// A number but 0.
fn if_numbered(number: u16) -> Option<u16>
    ensures { result ≡ if_numbered number }
{
    if number == 0 { None } else { Some(number) }
}

impl ObjectStates {
    /// Those of a checker.
    pub fn new(alloc: Global, machine: &Machine) -> Result<ObjectStates, AllocError>
        ensures { IfOk result (λ s. (x : State) → Contains s.states.keys x ↔ Contains (states_of_rules (rule_views machine.now.rules.now)) x) }
    {
        let named = named_states(alloc, machine.rules)?;
        let states = distinct(alloc, named.as_slice())?;
        Ok(ObjectStates { states })
    }

    /// The state with a number; none where the number is that of the unknown one, or of none.
    pub fn state(&self, number: u16) -> Option<(u8, u16)>
        ensures { result ≡ item_numbered self.now.states.keys number }
    {
        if number == 0 {
            return None;
        }
        self.states.get_index(number as usize - 1).copied()
    }

    // No two of them have one number.
    fn are_distinct(&self)
        ensures { IsOnce self.now.states.keys }
    {
        let _count = self.states.len();
    }

    /// The number of a state; 0 where no rule names it.
    pub fn number(&self, state: (u8, u16)) -> u16
        ensures number { result ≡ number_of_state self.now.states.keys state }
        ensures exact { (n : ℕ) → 0 < n → (result ≡ n) ↔ (item_numbered self.now.states.keys n ≡ Some state) }
        ensures within { result ≤ length self.now.states.keys }
    {
        self.are_distinct();
        match self.states.get_index_of(&state) {
            Some(place) => place as u16 + 1,
            None => 0,
        }
    }

    /// The number of a state, 0 of the unknown one, which is `None`; none where no rule names it.
    pub(crate) fn number_if_any(&self, state: Option<(u8, u16)>) -> Option<u16>
        ensures { (n : ℕ) → (result ≡ Some n) ↔ ((n ≤ length self.now.states.keys) × (item_numbered self.now.states.keys n ≡ state)) }
    {
        match state {
            Some(state) => if_numbered(self.number(state)),
            None => Some(0),
        }
    }
}
