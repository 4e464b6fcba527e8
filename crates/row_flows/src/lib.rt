//! How tuples of numbers flow over the rows of events: what a tuple at the head of a block becomes at its end, and which rules with an action are
//! taken on the way. Here all is numbers: what they stand for is said by those who make the rows.
#![tactic(auto)]

// tuples and rows
mod rows;
mod tuples;

// over one event
mod behind;
mod choices;

// events that leave a tuple alone
mod blocks;
mod calm;
mod concerned_objects;

// over the events of a block
mod crossing;

pub use behind::{Firing, add_given};
pub use blocks::BlockRows;
pub use calm::is_calm;
pub use choices::{bare, is_own};
pub use crossing::{Crossed, cross};
pub use rows::{Applied, EventRow, NumberedSource, NumberedTarget, Touched};
pub use tuples::NumberedTuple;
