//! Why a unit has no types.

ghost use Rattle.std.specs.Prelude.{◌≡◌};
ghost use Rattle.unit_typing.specs.declared.faults.TypeFault.TheVariants.{NoMemory};

use c_tree::Place;
use std::alloc::{AllocError, AllocFailed};
use thiserror::Error;

/// What is wrong with a unit, and where: the first token of the faulty expression, or the declared name.
#[derive(Clone, Copy, Debug, PartialEq, Eq, Error)]
pub enum TypeFault {
    /// A name isn't in scope (ISO 9899:1990, 6.3.1).
    #[error("the name isn't declared")]
    Undeclared { place: Place, name: u32 },
    /// No member of the structure or union has the name (6.3.2.3).
    #[error("there is no such member")]
    NoField { place: Place, name: u32 },
    /// A name or a tag is declared again where it may not be (6.5, 6.1.2.3, 6.5.2.3).
    #[error("the name is declared again")]
    Redeclared { place: Place, name: u32 },
    /// An operand that has to be a pointer or an array isn't one (6.3.2.1, 6.3.2.3, 6.3.3.2).
    #[error("the operand is no pointer")]
    NotPointer { place: Place },
    /// The operand of `.` is no complete structure or union (6.3.2.3).
    #[error("the operand is no complete structure or union")]
    NotStruct { place: Place },
    /// What is called is neither a function nor a pointer to one (6.3.2.2).
    #[error("what is called is no function")]
    NotFunction { place: Place },
    /// An operand that has to be an lvalue isn't one (6.3.2.4, 6.3.3.1, 6.3.3.2, 6.3.16).
    #[error("the operand is no lvalue")]
    NotLvalue { place: Place },
    /// There is too little memory.
    #[error("there is too little memory")]
    NoMemory,
}

impl From<AllocError> for TypeFault {
    ghost from_gives = { λ _ e. e ≡ NoMemory };

    fn from(_e: AllocError) -> TypeFault {
        TypeFault::NoMemory
    }
}

impl<T: Drop> From<AllocFailed<T>> for TypeFault {
    ghost from_gives = { λ _ e. e ≡ NoMemory };

    fn from(_e: AllocFailed<T>) -> TypeFault {
        TypeFault::NoMemory
    }
}
