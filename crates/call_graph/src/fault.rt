//! Why units can't be linked.

ghost use Rattle.std.specs.Prelude.{◌≡◌};
ghost use Rattle.call_graph.specs.declared.fault.LinkFault.TheVariants.{NoMemory};

use c_tree::Place;
use std::alloc::AllocError;
use thiserror::Error;

/// Why units aren't a program.
#[derive(Clone, Copy, Debug, PartialEq, Eq, Error)]
pub enum LinkFault {
    /// A function has a second body: both stand in one file, or both have external linkage (ISO 9899:1990, 6.7). The place is
    /// that of the name in the first definition, in source order, that repeats an earlier one.
    #[error("the function is defined twice")]
    DuplicateFunction { name: u32, place: Place },
    /// There is too little memory.
    #[error("there is too little memory")]
    NoMemory,
}

impl From<AllocError> for LinkFault {
    ghost from_gives = { λ _ e. e ≡ NoMemory };

    fn from(_e: AllocError) -> LinkFault {
        LinkFault::NoMemory
    }
}
