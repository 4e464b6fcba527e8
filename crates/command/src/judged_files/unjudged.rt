//! Why the files of a request gave no reports.

use request_files::LocatedFault;

/// Why the files of a request gave no reports.
#[derive(Drop)]
pub enum Unjudged {
    /// The file at this position was not read. Positions count from 0, the checkers first.
    NotRead(usize),
    /// The first fault: that of a file, or of linking.
    Faulty(LocatedFault),
    /// There was no memory.
    NoMemory,
}
