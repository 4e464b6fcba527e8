//! The objects that take their states from an object, or from which it takes its own: at events, and over calls.

mod calls;
mod events;
mod lists;

pub use calls::{callee_objects, caller_objects};
pub use events::linked_at;
