//! What checkers declare: their holes, names that are declared twice, and more of something than there may be.

mod declared_holes;
mod limits;
mod which;

pub use declared_holes::{DeclaredHole, holes_of};
pub use limits::{Declared, passing, repeated};
pub use which::Which;
