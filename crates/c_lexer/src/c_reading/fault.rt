//! What is wrong with bytes that have no reading.

/// Why nothing can be cut off where a reading stands.
#[derive(Clone, Copy, PartialEq, Eq)]
pub enum Fault {
    /// No token begins with this byte.
    BadByte,
    /// A literal or a comment isn't closed, or a character constant is empty.
    OpenText,
    /// A number is neither an integer constant of at most 64 bits nor a decimal floating constant.
    BadNumber,
    /// A line begins with `#` and is no marker of the preprocessor.
    BadMarker,
}
