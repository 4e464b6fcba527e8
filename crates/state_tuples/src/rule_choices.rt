//! The first of a checker's rules that the global state or an object takes at an event, and the first of its alternatives. Who is asked,
//! and which alternatives apply, stand elsewhere.

mod asked;
mod fired;
mod rules;

pub use asked::{Asked, fits, may_take};
pub use fired::Fired;
pub use rules::first_rule;
