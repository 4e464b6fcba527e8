//! What the holes of an alternative have taken.

use arrayvec::ArrayVec;
use c_tree::{Subject, Tree};

/// What a hole has taken.
#[derive(Clone, Copy)]
pub enum Taken<'a> {
    /// A subject.
    One(Subject<'a>),
    /// The rest of a list of arguments, as it stands in the call.
    Many(&'a [Tree<'a>]),
}

/// What each hole has taken, by its number: 16 slots, each empty or full.
#[derive(Drop)]
pub struct Binding<'a> {
    pub(crate) slots: ArrayVec<Option<Taken<'a>>, 16>,
}
