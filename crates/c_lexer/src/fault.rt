//! Why bytes have no reading, and where.

ghost use Rattle.std.specs.Prelude.{◌≡◌};
ghost use Rattle.c_lexer.specs.Faults.{fault_there};
ghost use Rattle.c_lexer.specs.declared.fault.LexFault.TheVariants.{NoMemory};

use crate::c_reading::Fault;
use c_tree::Place;
use std::alloc::{AllocError, AllocFailed};
use thiserror::Error;

/// A place in a source, as a reader finds it.
#[derive(Clone, Copy, Debug, PartialEq, Eq)]
pub struct Spot {
    /// The file, and the number of tokens before.
    pub place: Place,
    /// The number of the presumed file's name in the table of names.
    pub source: u32,
    /// The presumed line.
    pub line: u32,
    /// The column in bytes in the line as it was handed in, from 1.
    pub col: u32,
}

/// Why there are no tokens. All but the last come exactly where the bytes have no reading, at the first place where no blank,
/// marker or spelling can be cut off behind those before: in `08` at its beginning, since its longest spelling is no constant.
#[derive(Debug, Drop, Error)]
pub enum LexFault {
    /// No token begins with the byte there.
    #[error("no token begins with this byte")]
    BadByte(Spot),
    /// A literal or a comment isn't closed, or a character constant is empty.
    #[error("a literal or a comment isn't closed")]
    OpenText(Spot),
    /// A number is no constant.
    #[error("a number is no constant")]
    BadNumber(Spot),
    /// A line that begins with `#` is no marker.
    #[error("a line that begins with # is no marker")]
    BadMarker(Spot),
    /// There is too little memory.
    #[error("there is too little memory")]
    NoMemory,
}

impl LexFault {
    /// The fault of this kind, there.
    pub(crate) fn at(fault: Fault, spot: Spot) -> LexFault
        ensures { result ≡ fault_there fault spot }
    {
        match fault {
            Fault::BadByte => LexFault::BadByte(spot),
            Fault::OpenText => LexFault::OpenText(spot),
            Fault::BadNumber => LexFault::BadNumber(spot),
            Fault::BadMarker => LexFault::BadMarker(spot),
        }
    }
}

impl From<AllocError> for LexFault {
    ghost from_gives = { λ _ e. e ≡ NoMemory };

    fn from(_e: AllocError) -> LexFault {
        LexFault::NoMemory
    }
}
