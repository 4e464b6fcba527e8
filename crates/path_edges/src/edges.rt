//! Path edges, the contexts of called frames, and the frames that wait for their ends (Reps, Horwitz and Sagiv: Precise interprocedural
//! dataflow analysis via graph reachability, POPL 1995).

use least_set::Key;
use objects::Object;
use state_tuples::Tuple;

/// A called frame: its function, by its number, and the tuple with which it was entered.
#[derive(Drop, PartialEq, Eq, Hash)]
pub struct Context {
    pub function: u32,
    pub entry: Tuple,
}

impl Key for Context {
    ghost use Rattle.path_edges.specs.Ways.Equality.{same_context};

    ghost same = { same_context };
}

/// In a frame that was entered so, this tuple stands at the head of this block.
#[derive(Drop, PartialEq, Eq, Hash)]
pub struct Edge {
    pub context: Context,
    /// Whether it is a root's own frame. Else it was called.
    pub is_root: bool,
    pub block: u32,
    pub tuple: Tuple,
}

impl Key for Edge {
    ghost use Rattle.path_edges.specs.Ways.Equality.{same_edge};

    ghost same = { same_edge };
}

/// A frame that waits for the end of a callee.
#[derive(Drop, PartialEq, Eq)]
pub struct Waiter {
    pub context: Context,
    pub is_root: bool,
    /// The block that ends in the call.
    pub block: u32,
    /// The block behind the call.
    pub behind: u32,
    /// The object that is saved over the call, with its state; none in one that waits for what the callee hands back.
    pub saved: Option<(Object, Option<(u8, u16)>)>,
}
