//! The messages of rules.

/// What a rule reports where it is taken.
#[derive(Clone, Copy)]
pub struct Action<'a> {
    pub pieces: &'a [Piece<'a>],
}

/// A piece of a message. No two literal pieces stand side by side, and none is empty.
#[derive(Clone, Copy)]
pub enum Piece<'a> {
    /// These bytes as they stand.
    Literal { bytes: &'a [u8] },
    /// The text of what the hole with this number took.
    Hole(u8),
}
