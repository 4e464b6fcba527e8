//! Tuples of numbers.

use least_set::Key;
use std::hash::{Hash, Hasher};

/// The global state with one object and its state, by the numbers that these have in a function under a checker. It takes 8 bytes.
#[derive(Clone, Copy, Debug, PartialEq, Eq)]
pub struct NumberedTuple {
    /// The number of the global state: 0 is `start`, 1 is `stop`.
    pub global: u16,
    /// The number of the object's state; 0 where it is unknown, or there is no object.
    pub state: u16,
    /// The number of the object; 0 where the tuple is about the global state alone.
    pub object: u32,
}

impl Hash for NumberedTuple {
    ghost use Rattle.row_flows.specs.Ways.Equality.{same_input, tuple_input};

    ghost hash_input = { tuple_input };

    ghost respects_eq = { same_input };

    // all numbers at once, since each is fed as dearly as all
    fn hash<H: Hasher>(&self, state: &mut H) {
        state.write_u64(
            self.object as u64 | (self.state as u64) << 32 | (self.global as u64) << 48,
        );
    }
}

impl Key for NumberedTuple {
    ghost use Rattle.row_flows.specs.Ways.Equality.{same_numbers};

    ghost same = { same_numbers };
}
