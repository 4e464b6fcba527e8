//! Where a pattern stands among others.

/// Where the patterns of a list stand.
#[derive(Clone, Copy)]
pub(crate) enum Seat {
    /// Among the arguments of a call, the last of which may take the rest.
    Argument,
    /// In a list of any other kind.
    Elsewhere,
}
