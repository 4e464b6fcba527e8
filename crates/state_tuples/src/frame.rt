//! Frames.

use c_tree::Place;

/// The frame in which an event happens.
#[derive(Clone, Copy)]
pub struct Frame {
    /// The place of the function's name, where it is defined.
    pub function: Place,
    /// The number of that name.
    pub name: u32,
    /// Whether a path begins in this frame. Else it was called.
    pub is_root: bool,
}
