//! The roots of a graph of functions, each of which leads to others.

mod callees;
mod reaching;
mod search;

pub use callees::Callees;
pub use search::roots;
