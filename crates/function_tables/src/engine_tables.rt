//! What an engine goes over: a program under a checker with all that is computed of it before any path edge is, and its functions, blocks and
//! calls by their numbers.

mod blocks;
mod frames;
mod sites;
mod tables;

pub use blocks::{callee_at, end_at};
pub use frames::{Frame, item};
pub use tables::Tables;
