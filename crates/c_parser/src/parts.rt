//! Parts of statements and declarations that were read.

use c_tree::{Token, Tree, Trees};

/// A tree that was read, if there was one.
#[derive(Clone, Copy)]
pub(crate) struct MaybeRead<'a> {
    pub tree: Option<&'a Tree<'a>>,
    /// The tokens behind it.
    pub rest: &'a [Token],
    /// Its height, and 0 where there is none.
    pub height: u32,
}

/// Nodes that were read, with commas between, up to a brace.
#[derive(Clone, Copy)]
pub(crate) struct ReadCommaList<'a> {
    pub trees: Trees<'a>,
    /// Whether a comma stands behind the last.
    pub comma: bool,
    /// The tokens behind the brace.
    pub rest: &'a [Token],
    /// The height of the highest, and 0 where there is none.
    pub height: u32,
}
