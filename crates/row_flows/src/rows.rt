//! The rows of events: what each does to the objects that are followed, by number.

/// A followed object that an event's move touches: it doesn't keep its state.
#[derive(Clone, Copy, Debug, PartialEq, Eq)]
pub struct Touched {
    /// The number of the object.
    pub object: u32,
    /// The number of the object whose state before the move it has behind it; 0 where it is unknown there, since it has its state from none,
    /// or from one that isn't followed.
    pub source: u32,
}

/// The state in which a rule begins.
#[derive(Clone, Copy, Debug, PartialEq, Eq)]
pub enum NumberedSource {
    /// A global state.
    Global(u16),
    /// A state of an object, by its number.
    Object(u16),
}

/// The state to which a rule leads at an event.
#[derive(Clone, Copy, Debug, PartialEq, Eq)]
pub enum NumberedTarget {
    /// A global state.
    Global(u16),
    /// A state of an object, by its number; 0 where the object becomes unknown.
    Object(u16),
}

/// An alternative of a rule that applies at an event: who takes it, and where it leads.
#[derive(Clone, Copy, Debug, PartialEq, Eq)]
pub struct Applied {
    /// The number of the rule, from 1.
    pub rule: u16,
    /// The number of the alternative in its rule, from 0.
    pub alternative: usize,
    pub source: NumberedSource,
    pub target: NumberedTarget,
    /// The number of the object that the rule's variable has taken; 0 where it has taken none, or one that isn't followed.
    pub object: u32,
    /// Whether the rule reports.
    pub has_action: bool,
}

/// What an event does to followed objects, by number.
#[derive(Drop)]
pub struct EventRow {
    /// The objects that its move touches, in the order of their numbers.
    pub touched: Vec<Touched>,
    /// The alternatives that apply, in the order of the rules and then of their alternatives.
    pub applied: Vec<Applied>,
    /// Whether the function ends here: then an object that is known takes alternatives that don't bind it.
    pub is_exit: bool,
}
