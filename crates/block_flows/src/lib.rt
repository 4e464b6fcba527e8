//! How one tuple flows: over an event, over the events of a block, into a called function and back behind the call; and which rules with an
//! action are taken on the way. An engine enters a block once for each tuple at its head, and needs these alone.
#![tactic(auto)]

// idle and quiet events
mod idle_events;
mod quiet_events;

// tuples and how they flow
mod fronts;
mod sets;
mod tuple_flows;

// over the events of a block
mod crossing;
mod taken_rules;

pub use crossing::ends;
pub use taken_rules::{Firing, firings};
pub use tuple_flows::{into_call, is_followed, out_of_call};
