//! The rules that apply at an event, matched once for all states: whatever stands before the event, the rule that the global state or an
//! object takes is the first of these that begins in its state, leads where it has to and binds it. Which alternatives apply, and who may
//! take which rule, stand in the modules beside it.

mod bound;
mod choices;
mod matching;
mod rules;
mod sources;

pub use rules::EventRules;
pub use sources::RuleSources;
