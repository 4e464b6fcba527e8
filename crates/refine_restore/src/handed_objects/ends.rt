//! The ends of a call, at which objects take states.

/// An end of a call.
#[derive(Clone, Copy)]
pub(crate) enum End {
    /// The entry, at which objects of the callee take states of the caller's.
    Entry,
    /// The return, at which objects of the caller take states of the callee's.
    Return,
}
