//! What words ask for.

/// What words ask for, as parts of these words.
#[derive(Clone, Copy)]
pub struct Asked<'a> {
    /// How many selectors an object may have: 0 to 8, 4 where it isn't given.
    pub depth: u8,
    /// The name of the format, if one is given.
    pub format: Option<&'a [u8]>,
    /// Whether the line of statistics is asked for.
    pub stats: bool,
    /// The FILE words, checkers and C files, in order.
    pub files: &'a [String],
}
