//! Why not all files of a request were read.

use crate::fault::LocatedFault;

/// Why not all files were read and judged. Positions count from 0.
#[derive(Drop)]
pub enum Unread {
    /// The file at this position was not read.
    NotRead(usize),
    /// The file at this position has a fault, and those before it have none.
    Faulty(usize, LocatedFault),
    /// There was no memory.
    NoMemory,
}
