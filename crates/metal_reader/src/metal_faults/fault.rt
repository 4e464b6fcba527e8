//! Why a text is no checker, and where.

ghost use Rattle.std.specs.Prelude.{◌≡◌};
ghost use Rattle.metal_reader.specs.declared.metal_faults.fault.MetalFault.TheVariants.{NoMemory};
ghost use Rattle.metal_reader.specs.MetalFaults.ClauseFaults.{metal_fault};

use c_tree::Place;
use metal_clauses::ClauseFault;
use metal_numbers::Which;
use std::alloc::{AllocError, AllocFailed};
use thiserror::Error;

/// Why a text is no checker. Of several faults the first one in this order is told, and of rules the first one that has any.
#[derive(Debug, Drop, Error)]
pub enum MetalFault {
    /// The clause that begins at this place is none of the language.
    #[error("the clause that begins here is none")]
    Syntax(Place),
    /// The clause that begins at this place goes past a limit.
    #[error("there are too many of these")]
    TooMany(Which, Place),
    /// The name at this place is declared a second time.
    #[error("this name is declared twice")]
    Twice(u32, Place),
    /// The rule at this place has a callout of this name that is none of the language, or has other arguments.
    #[error("there is no such callout")]
    UnknownCallout(u32, Place),
    /// The rule with this number names two state variables.
    #[error("a rule names two state variables")]
    TwoVariables(u16),
    /// The rule splits and has a message, or stands at the end of a path, or its targets are of two kinds.
    #[error("a rule may not split so")]
    BadSplit(u16),
    /// The rule has a source or a target that doesn't fit.
    #[error("a rule may not go so")]
    BadSource(u16),
    /// The rule asks in an alternative of what no pattern there binds.
    #[error("a rule asks of what it does not bind")]
    VariableMissing(u16),
    /// The rule's message is none for its arguments.
    #[error("a message is none for its arguments")]
    BadFormat(u16),
    /// There is too little memory.
    #[error("there is too little memory")]
    NoMemory,
}

impl From<AllocError> for MetalFault {
    ghost from_gives = { λ _ e. e ≡ NoMemory };

    fn from(_e: AllocError) -> MetalFault {
        MetalFault::NoMemory
    }
}

impl<T: Drop> From<AllocFailed<T>> for MetalFault {
    ghost from_gives = { λ _ e. e ≡ NoMemory };

    fn from(_e: AllocFailed<T>) -> MetalFault {
        MetalFault::NoMemory
    }
}

impl From<ClauseFault> for MetalFault {
    ghost from_gives = { λ fault e. e ≡ metal_fault fault };

    fn from(fault: ClauseFault) -> MetalFault {
        match fault {
            ClauseFault::Syntax(place) => MetalFault::Syntax(place),
            ClauseFault::NoMemory => MetalFault::NoMemory,
        }
    }
}
