//! Why tokens are no unit, and where.

ghost use Rattle.std.specs.Prelude.{◌≡◌};
ghost use Rattle.c_parser.specs.declared.fault.ParseFault.TheVariants.{NoMemory};

use c_tree::Place;
use std::alloc::{AllocError, AllocFailed};
use thiserror::Error;

/// Why tokens are no translation unit.
#[derive(Clone, Copy, Debug, PartialEq, Eq, Error)]
pub enum ParseFault {
    /// The chunk of tokens that begins at this place is no external definition, and each chunk before it is one.
    #[error("no declaration or function is complete here")]
    Syntax(Place),
    /// There is too little memory.
    #[error("there is too little memory")]
    NoMemory,
}

impl From<AllocError> for ParseFault {
    ghost from_gives = { λ _ e. e ≡ NoMemory };

    fn from(_e: AllocError) -> ParseFault {
        ParseFault::NoMemory
    }
}

impl<T: Drop> From<AllocFailed<T>> for ParseFault {
    ghost from_gives = { λ _ e. e ≡ NoMemory };

    fn from(_e: AllocFailed<T>) -> ParseFault {
        ParseFault::NoMemory
    }
}
