//! Flow graphs: basic blocks by number.

ghost use Rattle.std.specs.Prelude.{◌<◌, ◌^◌, length};

use crate::event::Event;
use c_tree::Tree;

/// How a block ends.
#[derive(Drop)]
pub enum End<'a> {
    /// It goes on in any of these blocks. Behind a condition there are two, behind a `switch` those of its labels (ISO
    /// 9899:1990, 6.6.4.2); where there is none, the function hangs.
    Goto(Vec<u32>),
    /// A call whose callee has a body has been evaluated but for the callee's own events (6.3.2.2); it goes on in this block
    /// behind them.
    Call { site: &'a Tree<'a>, next: u32 },
    /// The function ends. The block has the exit as its one event.
    Exit,
}

/// A basic block.
#[derive(Drop)]
pub struct Block<'a> {
    /// What happens in it, in order.
    pub events: Vec<Event<'a>>,
    pub end: End<'a>,
}

/// The flow graph of a function.
#[derive(Drop)]
pub struct Graph<'a> {
    pub(crate) blocks: Vec<Block<'a>>,
    pub(crate) entry: u32,
    ghost few: { length blocks.items < 2 ^ 32 },
}
