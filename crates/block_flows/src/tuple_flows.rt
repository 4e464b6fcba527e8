//! How one tuple flows: over an event, into a called function, and back behind the call. A tuple that has no object stays without one, and
//! gives each followed object that begins there; one with an object that is followed gives the followed ones that have their state from it.

mod behind;
mod moves;
mod parts;
mod passed;

pub use behind::over_event;
pub use moves::moved;
pub use parts::is_followed;
pub use passed::{into_call, out_of_call};
