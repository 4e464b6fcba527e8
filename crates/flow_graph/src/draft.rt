//! Blocks while their graph grows.

ghost use Rattle.std.specs.Prelude.{◌≡◌};
ghost use Rattle.flow_graph.specs.Values.{way_of, turned};

use crate::event::Event;
use crate::graph::End;

/// How a block ends while the graph grows.
#[derive(Drop)]
pub(crate) enum DraftEnd<'a> {
    Known(End<'a>),
    /// At whatever blocks the label with this name then has: a `goto` (ISO 9899:1990, 6.6.6.1).
    Label(u32),
    /// It is reserved: the head of a loop whose condition isn't built yet.
    Open,
}

/// A block while the graph grows.
#[derive(Drop)]
pub(crate) struct Draft<'a> {
    pub(crate) events: Vec<Event<'a>>,
    pub(crate) end: DraftEnd<'a>,
}

/// Where an expression leads.
#[derive(Clone, Copy)]
pub(crate) enum Way {
    /// To one block, with its value.
    To(u32),
    /// As a condition: to one block where it holds, and to another where it fails.
    ToEither { holds: u32, fails: u32 },
}

impl Way {
    /// The way of a condition that holds where this one fails.
    pub(crate) fn turned(self) -> Way
        ensures { way_of result ≡ turned (way_of self) }
    {
        match self {
            Way::To(next) => Way::To(next),
            Way::ToEither { holds, fails } => Way::ToEither {
                holds: fails,
                fails: holds,
            },
        }
    }
}
