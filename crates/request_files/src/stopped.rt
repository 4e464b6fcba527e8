//! Why a file gave nothing.

ghost use Rattle.request_files.specs.Ways.Stages.{IsAtStart, IsKnown, IsNamed, IsRefused, IsThere};

use crate::fault::{Fault, LocatedFault};
use crate::front_end::Refusal;
use mx_base::Names;
use std::alloc::Global;

/// Why a file gave nothing.
#[derive(Drop)]
pub enum Stopped {
    /// It was not read.
    NotRead,
    /// It has a fault.
    Faulty(LocatedFault),
    /// There was no memory.
    NoMemory,
}

/// A fault of a whole file, which stands where the file begins.
pub(crate) fn at_start(alloc: Global, word: &[u8], fault: Fault) -> Stopped
    ensures { IsAtStart word.now fault result }
{
    match Vec::from_slice(alloc, word) {
        Ok(file) => Stopped::Faulty(LocatedFault {
            fault,
            file,
            line: 1,
        }),
        Err(_) => Stopped::NoMemory,
    }
}

/// A fault on a line of the presumed file with this number.
fn at_line(alloc: Global, names: &Names, fault: Fault, source: u32, line: u32) -> Stopped
    requires { IsNamed names.now source }
    ensures { IsThere names.now fault source line result }
{
    match Vec::from_slice(alloc, names.text_of(source)) {
        Ok(file) => Stopped::Faulty(LocatedFault { fault, file, line }),
        Err(_) => Stopped::NoMemory,
    }
}

/// The fault for which a file is refused, or want of memory.
pub(crate) fn refused(alloc: Global, names: &Names, refusal: Refusal) -> Stopped
    requires { IsKnown names.now refusal }
    ensures { IsRefused names.now refusal result }
{
    let Refusal::Faulty(found) = refusal else {
        return Stopped::NoMemory;
    };
    at_line(alloc, names, found.fault, found.source, found.line)
}
