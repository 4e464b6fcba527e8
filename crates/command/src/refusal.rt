//! The lines that a run writes to `errs`.

ghost use Rattle.std.specs.Prelude.{◌≡◌, ◌++◌, IfOk};
ghost use Rattle.command.specs.Due.{not_read_line, usage_line};
ghost use Rattle.request_files.specs.Faults.{refused_line};
ghost use Rattle.request_files.specs.Views.{located_of};

use crate::lines::append_all;
use itoa::Buffer;
use mx_base::Text;
use request_files::LocatedFault;
use std::alloc::{AllocError, Global};

/// How the command is called.
pub(crate) fn usage(alloc: Global) -> Result<Text, AllocError>
    ensures { IfOk result (λ line. line ≡ usage_line) }
{
    Text::from_bytes(
        alloc,
        b"usage: metalcheck [--depth N] [--format NAME] [--stats] FILE...\n",
    )
}

/// A file was not read.
pub(crate) fn not_read(alloc: Global, name: &str) -> Result<Text, AllocError>
    ensures { IfOk result (λ line. line ≡ not_read_line name.now) }
{
    let mut line = Text::from_bytes(alloc, name.as_bytes())?;
    line.push_all(b": not read\n")?;
    Ok(line)
}

/// A file has a fault.
pub(crate) fn refused(alloc: Global, located: &LocatedFault) -> Result<Text, AllocError>
    ensures { IfOk result (λ line. line ≡ refused_line (located_of located.now)) }
{
    let mut number = Buffer::new();
    let place = [
        located.file.as_slice(),
        b":",
        number.format(located.line).as_bytes(),
        b": refused: ",
    ];
    let mut line = Text::new(alloc);
    append_all(&place, &mut line)?;
    line.push_all(located.fault.name().as_bytes())?;
    line.push_all(b"\n")?;
    Ok(line)
}
