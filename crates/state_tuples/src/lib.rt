//! The exact step of one tuple: which rule the global state or an object takes at an event, by the states behind the event's move, and
//! the states behind the rule; the same of all rules that apply at an event, matched once; and the report of a rule that is taken.
#![tactic(auto)]

// tuples and frames
mod frame;
mod tuple;

// alternatives, bindings and targets
mod alternatives;
mod bound;
mod targets;

// choices of rules
mod applied_rules;
mod choices;
mod rule_choices;

// steps and reports
mod steps;
mod transition_reports;

pub use applied_rules::{EventRules, RuleSources};
pub use choices::{fired, fired_global};
pub use frame::Frame;
pub use rule_choices::Fired;
pub use steps::{next_global, next_state, next_tuple};
pub use transition_reports::{Checker, report_of};
pub use tuple::Tuple;
