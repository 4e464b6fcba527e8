//! Where states come from.

use crate::object::Object;

/// The object whose state before a move, or at a call, another one has behind it.
#[derive(Drop)]
pub enum Origin {
    /// The object itself.
    Same,
    /// Another object.
    From(Object),
    /// None: the state is unknown, whatever stood before.
    Nothing,
}
