//! Sets of pairs of a key and the number of a block.
//!
//! An `EntryLog` keeps the order in which they came. It is what an `IndexSet` of pairs is, in less memory: each key is kept
//! once, with a row of bits, one for each block, and a pair costs its bit and the eight bytes of its place in the order. An
//! `EntrySet` keeps no order, and a pair costs its bit alone.
#![tactic(auto)]

mod bits;
mod driver_log;
mod entries;
mod sets;

pub use entries::EntryLog;
pub use sets::EntrySet;
