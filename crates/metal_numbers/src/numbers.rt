//! The numbers of holes and states, as they are kept.

ghost use Rattle.std.specs.Prelude.{◌≡◌, true};
ghost use Rattle.metal_numbers.specs.Small.{is_small};

use metal_tree::States;
use metal_written::StateName;

/// What gives names their numbers.
#[derive(Clone, Copy)]
pub struct Numbering<'a> {
    /// The names of the holes, the state variables first.
    pub holes: &'a [u32],
    /// The states that the rules mention, in the order of the text.
    pub mentioned: &'a [StateName],
    /// The names of the global states but `start` and `stop`.
    pub globals: &'a [u32],
    /// The states of each state variable but `stop`.
    pub states: &'a [States<'a>],
    ghost small: { is_small holes.now globals.now states.now ≡ true },
}
