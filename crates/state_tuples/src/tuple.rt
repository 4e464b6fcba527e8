//! Tuples: the global state, and the state of one object.

ghost use Rattle.std.specs.Prelude.{◌≡◌, ◌||◌, is_none, is_some, true};

use least_set::Key;
use objects::Object;

/// The global state of a checker, with one object and its state.
#[derive(Drop, PartialEq, Eq, Hash)]
pub struct Tuple {
    /// The number of the global state: 0 is `start`, 1 is `stop`.
    pub global: u16,
    /// An object, or none where the tuple is about the global state alone.
    pub object: Option<Object>,
    /// The variable and the number of the object's state; `None` where there is no object or its state is unknown.
    pub state: Option<(u8, u16)>,
    ghost bare: { is_some object || is_none state ≡ true },
}

impl Key for Tuple {
    ghost use Rattle.state_tuples.specs.Ways.Equality.{same_tuple};

    ghost same = { same_tuple };
}
