//! The rules of an event.

use crate::rule_choices::Fired;
use flow_graph::Event;
use hole_matcher::Setting;

/// The alternatives of a checker's rules that apply at an event, in the order of the rules and then of their alternatives, each with its
/// number in its rule and its binding. They are matched once; which of them is taken is asked for each state.
#[derive(Drop)]
pub struct EventRules<'m, 'a> {
    /// The checker's holes and variables, the unit and the function in which the event stands.
    pub setting: Setting<'m, 'a>,
    pub event: Event<'a>,
    pub applied: Vec<Fired<'m, 'a>>,
}
