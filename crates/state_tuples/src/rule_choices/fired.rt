//! Rules that are taken.

use hole_matcher::Binding;
use metal_tree::Rule;

/// A rule that is taken.
#[derive(Drop)]
pub struct Fired<'m, 'a> {
    pub rule: &'m Rule<'m>,
    /// The number of the alternative by which it is taken, from 0: the first one that applies with a binding that fits.
    pub alternative: usize,
    /// What the holes of that alternative have taken.
    pub binding: Binding<'a>,
}
