//! Single steps between path edges: what an edge leads to is said by how its block ends, and lists of edges are made of lists of tuples.

mod callees;
mod copies;
mod firsts;
mod next_blocks;
mod put_back;

pub use callees::{entered, waits_for, woken};
pub use copies::{copy_context, copy_tuple};
pub use firsts::first_edges;
pub use next_blocks::onward;
pub use put_back::put_back_edge;
