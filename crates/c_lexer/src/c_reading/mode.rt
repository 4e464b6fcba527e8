//! The two kinds of text that are read.

/// What a text is read as.
#[derive(Clone, Copy, PartialEq, Eq)]
pub enum Mode {
    /// Preprocessed C. A line that begins with `#` is a marker of the preprocessor.
    C,
    /// A checker. `$` and `==>` are punctuators, and no byte `#` stands outside comments and literals.
    Metal,
}
