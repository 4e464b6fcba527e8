//! Checkers as they are written: clauses, sections and rules, the words, strings and names of them, and the texts of their messages.
#![tactic(auto)]

// clauses and words
mod words;
mod written;

// items, holes, names and rules
mod items;
mod kinds;
mod metal_names;
mod placed;

// callouts and messages
mod callouts;
mod messages;
mod texts;

pub use callouts::{hole_asked, is_callout, literal_asked, row_of};
pub use items::{has_end, has_pattern};
pub use kinds::{HoleKind, Position, Seat, kind_of_hole, may_have, may_stand, seat_of};
pub use messages::message_with;
pub use metal_names::{is_among, mentions, number_among, with_holes};
pub use placed::{PlacedRule, head_size, rules_of};
pub use texts::Texts;
pub use words::{contents_of, is_spelled};
pub use written::{
    Argument, Clause, Content, Declaration, Destination, Head, Identifier, Literal, Section,
    StateName, WrittenAction, WrittenAlternative, WrittenCallout, WrittenItem, WrittenRule,
    WrittenType,
};
