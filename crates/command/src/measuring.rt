//! What is measured of a generated program.

ghost use Rattle.std.specs.Prelude.{◌≡◌, ◌++◌, ◌+◌, ◌<◌, ◌≤◌, ◌^◌, codes, IfOk};
ghost use Rattle.std.specs.Fmt.{decimal};
ghost use Rattle.command.specs.Measured.{IsMeasure};

use crate::generated_program::write_program;
use crate::lines::append_all;
use crate::reported::program_reports;
use crate::status::{Status, status_of};
use itoa::Buffer;
use mx_base::Text;
use std::alloc::{AllocError, Global};

/// The line of a generated program, and the status of its reports.
#[derive(Drop)]
pub(crate) struct Measured {
    pub line: Text,
    pub status: Status,
}

/// `functions F, bytes B, reports R`.
fn line_with(
    alloc: Global,
    functions: u32,
    bytes: usize,
    reports: usize,
) -> Result<Text, AllocError>
    ensures { IfOk result (λ line. line ≡ codes "functions " ++ (decimal functions ++ (codes ", bytes " ++ (decimal bytes ++ (codes ", reports " ++ (decimal reports ++ codes "\n")))))) }
{
    let mut functions_digits = Buffer::new();
    let mut bytes_digits = Buffer::new();
    let mut reports_digits = Buffer::new();
    let pieces: [&[u8]; 7] = [
        b"functions ",
        functions_digits.format(functions).as_bytes(),
        b", bytes ",
        bytes_digits.format(bytes).as_bytes(),
        b", reports ",
        reports_digits.format(reports).as_bytes(),
        b"\n",
    ];
    let mut line = Text::new(alloc);
    append_all(&pieces, &mut line)?;
    Ok(line)
}

/// Generates the program of a number from 1 to 9999, judges it under the fixed checker, and counts its functions, its bytes and its
/// reports. No file is read.
pub(crate) fn measure(alloc: Global, count: u32) -> Result<Measured, AllocError>
    requires least { 1 ≤ count }
    requires most { count ≤ 9999 }
    ensures { IfOk result (λ m. IsMeasure count m.line m.status) }
{
    let mut program = Text::new(alloc);
    write_program(count, &mut program)?;
    let reports = program_reports(alloc, program.as_bytes())?;
    let line = line_with(alloc, count + 2, program.len(), reports.len())?;
    let status = status_of(&reports);
    Ok(Measured { line, status })
}
