//! What a block is entered with.

use least_set::Key;
use row_flows::NumberedTuple;

/// A block of a function, the tuple at its head, and the kind of frame in which it stands there.
#[derive(Clone, Copy, Debug, PartialEq, Eq, Hash)]
pub struct Entered {
    /// The number of the function.
    pub function: u32,
    /// The number of the block in the function.
    pub block: u32,
    pub tuple: NumberedTuple,
    /// Whether the frame is a root's own.
    pub is_root: bool,
}

impl Key for Entered {
    ghost use Rattle.block_summary.specs.Ways.Equality.{same_entered};

    ghost same = { same_entered };
}

/// A row of marks: the blocks of a function that are entered with this tuple in this kind of frame.
#[derive(Clone, Copy, Debug, PartialEq, Eq, Hash)]
pub(crate) struct MarkRow {
    pub(crate) function: u32,
    pub(crate) tuple: NumberedTuple,
    pub(crate) is_root: bool,
}

impl Key for MarkRow {
    ghost use Rattle.block_summary.specs.Ways.Equality.{same_mark_row};

    ghost same = { same_mark_row };
}
