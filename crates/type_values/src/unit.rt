//! Translation units.

use c_tree::{Token, Trees};

/// A translation unit (ISO 9899:1990, 6.7).
#[derive(Clone, Copy)]
pub struct Unit<'a> {
    /// The number of its file.
    pub file: u16,
    /// Its tokens.
    pub tokens: &'a [Token],
    /// The trees of its external definitions, in order.
    pub chunks: Trees<'a>,
}
