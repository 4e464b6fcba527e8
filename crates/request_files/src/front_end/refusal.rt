//! Why the bytes or tokens of a file give nothing, and where.

ghost use Rattle.std.specs.Prelude.{◌≡◌};
ghost use Rattle.request_files.specs.declared.front_end.refusal.Refusal.TheVariants.{NoMemory};

use crate::fault::Fault;
use std::alloc::{AllocError, AllocFailed};
use thiserror::Error;

/// A fault, and where it stands.
#[derive(Clone, Copy, Debug, PartialEq, Eq)]
pub struct Faulty {
    pub fault: Fault,
    /// The number of the presumed file's name in the table of names.
    pub source: u32,
    /// The presumed line.
    pub line: u32,
}

/// Why a file, a checker or one of C, gives nothing.
#[derive(Clone, Copy, Debug, PartialEq, Eq, Error)]
pub enum Refusal {
    /// It has a fault.
    #[error("the file has a fault")]
    Faulty(Faulty),
    /// There is too little memory.
    #[error("there is too little memory")]
    NoMemory,
}

impl From<AllocError> for Refusal {
    ghost from_gives = { λ _ e. e ≡ NoMemory };

    fn from(_e: AllocError) -> Refusal {
        Refusal::NoMemory
    }
}

impl<T: Drop> From<AllocFailed<T>> for Refusal {
    ghost from_gives = { λ _ e. e ≡ NoMemory };

    fn from(_e: AllocFailed<T>) -> Refusal {
        Refusal::NoMemory
    }
}
