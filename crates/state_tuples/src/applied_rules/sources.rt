//! Where the rules begin of which one asks what they bind.

/// The states in which the rules begin of which one asks what they bind.
#[derive(Clone, Copy)]
pub enum RuleSources {
    /// Any state.
    AnyState,
    /// Global states: such rules alone give a state, or a report, to an object that is unknown.
    GlobalStates,
}
