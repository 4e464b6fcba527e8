//! Why the clauses of a text weren't all read.

ghost use Rattle.std.specs.Prelude.{◌≡◌};
ghost use Rattle.metal_clauses.specs.declared.fault.ClauseFault.TheVariants.{NoMemory};

use c_tree::Place;
use std::alloc::{AllocError, AllocFailed};
use thiserror::Error;

/// Why the clauses of a text weren't all read.
#[derive(Debug, Drop, Error)]
pub enum ClauseFault {
    /// The clause that begins at this place is none of the language.
    #[error("the clause that begins here is none")]
    Syntax(Place),
    /// There is too little memory.
    #[error("there is too little memory")]
    NoMemory,
}

impl From<AllocError> for ClauseFault {
    ghost from_gives = { λ _ e. e ≡ NoMemory };

    fn from(_e: AllocError) -> ClauseFault {
        ClauseFault::NoMemory
    }
}

impl<T: Drop> From<AllocFailed<T>> for ClauseFault {
    ghost from_gives = { λ _ e. e ≡ NoMemory };

    fn from(_e: AllocFailed<T>) -> ClauseFault {
        ClauseFault::NoMemory
    }
}
