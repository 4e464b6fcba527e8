//! Subjects as values of the program.

use crate::tree::Tree;

/// What has been evaluated, and what a pattern is matched with.
#[derive(Clone, Copy)]
pub enum Subject<'a> {
    /// A tree.
    Tree(&'a Tree<'a>),
    /// The `*x` that is read out of `x->f` (ISO 9899:1990, 6.3.2.3), given by the `x`. Its first token is that of `x`.
    DerefOf(&'a Tree<'a>),
}
