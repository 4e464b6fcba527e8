//! Which blocks of a flow graph control may come to.

mod blocks;
mod onward;

pub use blocks::reached;
