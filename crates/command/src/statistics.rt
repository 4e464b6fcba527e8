//! The line of statistics.

ghost use Rattle.std.specs.Prelude.{◌≡◌, IfOk};
ghost use Rattle.command.specs.Counted.{stats_line};
ghost use Rattle.command.specs.Rendered.{line_for};

use crate::lines::append_all;
use itoa::Buffer;
use mx_base::Text;
use std::alloc::{AllocError, Global};

/// `metalcheck: entries N`.
fn entries_line(alloc: Global, entries: u64) -> Result<Text, AllocError>
    ensures { IfOk result (λ line. line ≡ stats_line entries) }
{
    let mut digits = Buffer::new();
    let pieces: [&[u8]; 3] = [
        b"metalcheck: entries ",
        digits.format(entries).as_bytes(),
        b"\n",
    ];
    let mut line = Text::new(alloc);
    append_all(&pieces, &mut line)?;
    Ok(line)
}

/// The line of so many entries, where they were counted, and else none.
pub(crate) fn line_for(alloc: Global, entries: Option<u64>) -> Result<Text, AllocError>
    ensures { IfOk result (λ line. line ≡ line_for entries) }
{
    match entries {
        None => Ok(Text::new(alloc)),
        Some(entries) => entries_line(alloc, entries),
    }
}
