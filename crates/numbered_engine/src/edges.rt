//! Path edges by number.

use least_set::Key;
use row_flows::NumberedTuple;

/// A frame: its function, and the tuple with which it was entered.
#[derive(Clone, Copy, Debug, PartialEq, Eq, Hash)]
pub struct NumberedContext {
    /// The number of the function.
    pub function: u32,
    pub entry: NumberedTuple,
}

impl Key for NumberedContext {
    ghost use Rattle.numbered_engine.specs.Ways.Equality.{same_context};

    ghost same = { same_context };
}

/// In a frame that was entered so, this tuple stands at the head of this block. It takes 24 bytes.
#[derive(Clone, Copy, Debug, PartialEq, Eq, Hash)]
pub struct NumberedEdge {
    pub context: NumberedContext,
    /// The number of the block.
    pub block: u32,
    pub tuple: NumberedTuple,
}

impl Key for NumberedEdge {
    ghost use Rattle.numbered_engine.specs.Ways.Equality.{same_edge};

    ghost same = { same_edge };
}

/// A frame that waits for the end of a callee.
#[derive(Clone, Copy, Debug)]
pub struct NumberedWaiter {
    pub context: NumberedContext,
    /// The block that ends in the call.
    pub block: u32,
    /// The tuple at the call whose object is saved over it; without an object where the frame waits for what is handed back.
    pub saved: NumberedTuple,
}
