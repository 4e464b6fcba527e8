//! Which of the rules of an event is taken, and the states behind it.

ghost use Rattle.std.specs.Prelude.{◌≡◌, ℕ, map, Some, None, IfSome};
ghost use Rattle.std.specs.Option.{option_map};
ghost use Rattle.state_tuples.specs.AppliedRules.Events.{applied_of, AreOfEvent};
ghost use Rattle.state_tuples.specs.Ways.Firsts.{takes, picked, first_taken};
ghost use Rattle.state_tuples.specs.AppliedRules.Takers.{IsFirstFor};
ghost use Rattle.path_model.specs.CheckerModel.Choices.{first_some, scene, taken, taken_global, next_global, chosen};
ghost use Rattle.path_model.specs.CheckerModel.Happenings.{Function, Happening};
ghost use Rattle.flow_graph.specs.Values.{event_of};
ghost use Rattle.hole_matcher.specs.HoleBindings.Settings.{setting_in};
ghost use Rattle.metal_tree.specs.MetalMachines.Machine.{Machine as Form};
ghost use Rattle.state_tuples.specs.RuleChoices.Values.{asker_of, taken_of};

use crate::applied_rules::rules::EventRules;
use crate::choices::{asked_object, is_asked, is_global_asked};
use crate::rule_choices::{Asked, Fired, fits, may_take};
use crate::targets::{global_behind, object_behind, target_at};
use metal_tree::STOP;
use objects::Object;

impl<'m, 'a> EventRules<'m, 'a> {
    // Whether who is asked takes a rule with this binding.
    fn takes(&self, global: u16, asked: Asked, fired: &Fired) -> bool
        ensures { result ≡ takes (setting_in self.now.setting) (event_of self.now.event) global (asker_of asked.entry) (taken_of fired.now) }
    {
        may_take(&self.event, global, asked, fired.rule)
            && fits(
                &self.setting,
                &self.event,
                asked,
                fired.rule,
                &fired.binding,
            )
    }

    // The first that who is asked takes.
    fn first(&self, global: u16, asked: Asked) -> Option<&Fired<'m, 'a>>
        ensures { option_map (λ t. applied_of t.now) result ≡ first_some (picked (setting_in self.now.setting) (event_of self.now.event) global (asker_of asked.entry)) (map applied_of self.now.applied.items) }
    {
        for fired in self.applied.as_slice() {
            if self.takes(global, asked, fired) {
                return Some(fired);
            }
        }
        None
    }

    // The first that who is asked takes, if it is asked here and the global state isn't `stop`.
    fn first_taken(&self, is_asked: bool, global: u16, asked: Asked) -> Option<&Fired<'m, 'a>>
        ensures { option_map (λ t. applied_of t.now) result ≡ first_taken (setting_in self.now.setting) (event_of self.now.event) is_asked global (asker_of asked.entry) (map applied_of self.now.applied.items) }
    {
        if global == STOP || !is_asked {
            return None;
        }
        self.first(global, asked)
    }

    /// The rule that the global state takes, by the first of its alternatives by which it can.
    pub fn taken_global(&self, is_root: bool, global: u16) -> Option<&Fired<'m, 'a>>
        ensures taken { (m : Form) (depth : ℕ) (h : Happening) (f : Function) → AreOfEvent m depth h f self.now → option_map (λ t. taken_of t.now) result ≡ taken_global m depth h f is_root global }
        ensures first { (m : Form) (depth : ℕ) (h : Happening) (f : Function) → AreOfEvent m depth h f self.now → IfSome result (λ t. IsFirstFor (scene m depth h f) h.event None t.now) }
    {
        let asked = is_global_asked(&self.event, is_root);
        self.first_taken(asked, global, Asked::Global)
    }

    /// The rule that an object takes, by its state behind the event's move, `None` where that is unknown. It takes it by the first of its
    /// alternatives by which it can.
    pub fn taken(
        &self,
        is_root: bool,
        global: u16,
        object: &Object,
        state: Option<(u8, u16)>,
    ) -> Option<&Fired<'m, 'a>>
        ensures taken { (m : Form) (depth : ℕ) (h : Happening) (f : Function) → AreOfEvent m depth h f self.now → option_map (λ t. taken_of t.now) result ≡ taken m depth h f is_root global object.now state }
        ensures first { (m : Form) (depth : ℕ) (h : Happening) (f : Function) → AreOfEvent m depth h f self.now → IfSome result (λ t. IsFirstFor (scene m depth h f) h.event (Some object.now) t.now) }
    {
        let asked = is_asked(&self.event, is_root, object);
        self.first_taken(asked, global, asked_object(object, state))
    }

    /// The global state behind the event.
    pub fn next_global(&self, is_root: bool, global: u16) -> u16
        ensures { (m : Form) (depth : ℕ) (h : Happening) (f : Function) → AreOfEvent m depth h f self.now → result ≡ next_global m depth h f is_root global }
    {
        match self.taken_global(is_root, global) {
            Some(taken) => global_behind(target_at(&self.event, &taken.rule.dest), global),
            None => global,
        }
    }

    /// The state of an object behind the event, by its state behind the event's move; `None` where it is unknown.
    pub fn next_state(
        &self,
        is_root: bool,
        global: u16,
        object: &Object,
        state: Option<(u8, u16)>,
    ) -> Option<(u8, u16)>
        ensures { (m : Form) (depth : ℕ) (h : Happening) (f : Function) → AreOfEvent m depth h f self.now → result ≡ chosen m depth h f is_root global object.now state }
    {
        match self.taken(is_root, global, object, state) {
            Some(taken) => object_behind(target_at(&self.event, &taken.rule.dest), state),
            None => state,
        }
    }
}
