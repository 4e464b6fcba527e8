//! Places in the sources: where a token or a node stands.

/// A place: a file, and a token in it.
#[derive(Clone, Copy, Debug, PartialEq, Eq)]
pub struct Place {
    /// The number of the file, from 0, in the order in which the files were handed in.
    pub file: u16,
    /// The number of tokens before it in that file.
    pub token: u32,
}
