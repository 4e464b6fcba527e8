//! The rules of a checker: from which state, at which pattern, to which state, with which message.

use crate::messages::Action;
use crate::patterns::Pattern;
use c_tree::Place;

/// The number of the global state `start`, in which paths begin.
pub const START: u16 = 0;
/// The number of the global state `stop`, which nothing leaves.
pub const STOP: u16 = 1;
/// The number of the first global state with a name of its own.
pub const FIRST_NAMED: u16 = 2;

/// The state that a rule begins in.
#[derive(Clone, Copy, Debug, PartialEq, Eq)]
pub enum Source {
    /// A state of the machine: `START`, `STOP`, or one with a name of its own, from `FIRST_NAMED` on.
    Global(u16),
    /// A state of the object that a variable takes.
    Object { variable: u8, state: u16 },
}

/// The state that a rule leads to.
#[derive(Clone, Copy, Debug, PartialEq, Eq)]
pub enum Target {
    /// A state of the machine.
    Global(u16),
    /// A state of the object that the variable takes.
    Object { variable: u8, state: u16 },
    /// The state of the object becomes unknown.
    Unknown { variable: u8 },
}

/// Where a rule leads.
#[derive(Clone, Copy, Debug, PartialEq, Eq)]
pub enum Dest {
    To(Target),
    /// A target for each truth of the branch at which the rule stands.
    Split { on_true: Target, on_false: Target },
}

/// A rule.
#[derive(Clone, Copy)]
pub struct Rule<'a> {
    /// Its number, from 1, in the order of the text.
    pub number: u16,
    /// The place of its first token.
    pub place: Place,
    pub source: Source,
    pub pattern: Pattern<'a>,
    pub dest: Dest,
    pub action: Option<Action<'a>>,
}
