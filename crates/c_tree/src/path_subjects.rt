//! What the events of a function are about, and what patterns are matched with: a tree, or the dereference that is read out
//! of an arrow.
#![tactic(auto)]

mod subject;
mod theorems;

pub use subject::Subject;
pub use theorems::trees_stand_at_their_first_tokens;
