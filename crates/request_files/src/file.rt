//! One file, read whole.

ghost use Rattle.std.specs.Prelude.{◌≡◌, ◌≤◌};
ghost use Rattle.mx_io.specs.Reads.{ReadsReadable};
ghost use Rattle.request_files.specs.Ways.Stages.{AnswersFile, failed_after_file};

use mx_io::{FileFault, Files};

/// At most so many bytes in one file.
pub const FILE_LIMIT: u64 = 16777216;

/// At most so many bytes in all files together.
pub const TOTAL_LIMIT: u64 = 33554432;

/// Why a file's contents are not there.
#[derive(Clone, Copy, Debug, PartialEq, Eq)]
pub enum Missing {
    /// The read failed.
    NotRead,
    /// There are more bytes than may come.
    TooLarge,
    /// There was no memory.
    NoMemory,
}

/// Reads a file of which at most `left` bytes may come.
pub fn read_file<F: Files>(files: &mut F, name: &str, left: u64) -> Result<Vec<u8>, Missing>
    requires { left ≤ 33554432 }
    ensures answer { AnswersFile (F.contents files.old name.now) left result }
    ensures failed { F.failed files.new ≡ failed_after_file (F.failed files.old) name.now result }
    ensures same { F.contents files.new ≡ F.contents files.old }
    ensures readable { ReadsReadable (F.readable files.old) (F.failed files.old) (F.failed files.new) }
    ensures kept { F.readable files.new ≡ F.readable files.old }
{
    match files.read(name, FILE_LIMIT.min(left)) {
        Err(FileFault::Failed) => Err(Missing::NotRead),
        Err(FileFault::TooLarge(_)) => Err(Missing::TooLarge),
        Err(FileFault::NoMemory) => Err(Missing::NoMemory),
        Ok(bytes) => Ok(bytes),
    }
}
