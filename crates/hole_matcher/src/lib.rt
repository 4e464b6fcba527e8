//! Patterns of checkers over trees of C: what holes take, which alternatives of rules match, and with which binding, what callouts answer,
//! and the texts of messages.
#![tactic(auto, using(c_tree::proofs::Rows::nodes_out, c_tree::proofs::Rows::nodes_roll, tree_comparison::proofs::TreeLevels::Apart::heads_apart))]

// holes, patterns and their walk
mod hole_bindings;
mod patterns;
mod seat;
mod walk;

// matches and messages
mod alternatives;
mod hole_messages;

pub use alternatives::{all_hold, callout, match_items, matches};
pub use hole_bindings::{Binding, Setting, Taken};
pub use hole_messages::{from_place, name_text, write_message};
