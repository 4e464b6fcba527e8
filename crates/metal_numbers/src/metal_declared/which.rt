//! What there is a limit for.

/// What a checker has too many of.
#[derive(Clone, Copy, Debug, PartialEq, Eq)]
pub enum Which {
    /// State variables: at most 8.
    Variables,
    /// Holes, the state variables among them: at most 16.
    Holes,
    /// Rules: at most 1000.
    Rules,
}
