//! Whether tokens are those of a syntax tree.

mod leading;
mod yielded;

pub use yielded::yields;
