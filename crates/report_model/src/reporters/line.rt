//! The line of a report.

ghost use Rattle.std.specs.Prelude.{◌≡◌, ◌++◌, OnOk, OnErr};
ghost use Rattle.report_model.specs.Lines.{line_of};
ghost use Rattle.report_model.specs.OfReporters.Beginnings.{HasBegun};

use crate::report::Report;
use crate::reporters::pieces::append_all;
use itoa::Buffer;
use mx_base::Text;
use std::alloc::AllocError;

/// Appends `FILE:LINE:COL: CHECKER: MESSAGE` and a line feed. An error leaves a beginning of it appended.
pub fn write_line(report: &Report, into: &mut Text) -> Result<(), AllocError>
    ensures ok { OnOk result (into.new ≡ into.old ++ line_of report.now) }
    ensures err { OnErr result (HasBegun into.old (line_of report.now) into.new) }
{
    let mut line = Buffer::new();
    let mut col = Buffer::new();
    let parts = [
        report.file.as_bytes(),
        b":",
        line.format(report.line).as_bytes(),
        b":",
        col.format(report.col).as_bytes(),
        b": ",
        report.checker_name.as_bytes(),
        b": ",
        report.message.as_bytes(),
        b"\n",
    ];
    append_all(&parts, into)
}
