//! Reads the parts of clauses that hold no pattern: declarations, states, destinations, callouts and actions.

mod actions;
mod callouts;
mod declarations;
mod destinations;
mod front;
mod states;
mod types;

pub use actions::read_maybe_action;
pub use callouts::read_callout;
pub use declarations::read_declaration;
pub use destinations::read_destination;
pub use front::{behind_sign, has_sign, take_word};
pub use states::read_state;
