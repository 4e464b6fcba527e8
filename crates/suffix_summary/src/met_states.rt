//! What rules bind where their global states are met: the objects that take a rule while they are unknown, in the global states with which
//! path edges come to the events of their blocks, or in `start`, where paths meet no other. Which edges there are doesn't matter here.

mod edges;
mod events;
mod start;

pub(crate) use edges::bound_where_met;
pub(crate) use start::{bound_in_start, stays_in_start};
