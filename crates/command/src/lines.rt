//! The lines of reports, and texts out of pieces.

ghost use Rattle.std.specs.Prelude.{◌≡◌, ◌++◌, flat_map, IfOk, OnOk};
ghost use Rattle.report_model.specs.Lines.{text_of};

use mx_base::Text;
use report_model::{Report, write_line};
use std::alloc::{AllocError, Global};

/// Appends texts, one behind the other.
pub(crate) fn append_all(texts: &[&[u8]], into: &mut Text) -> Result<(), AllocError>
    ensures { OnOk result (into.new ≡ into.old ++ flat_map (λ t. t.now) texts.now) }
{
    for piece in texts {
        into.push_all(piece)?;
    }
    Ok(())
}

/// A line for each report.
pub(crate) fn write_lines(alloc: Global, reports: &[Report]) -> Result<Vec<u8>, AllocError>
    ensures { IfOk result (λ text. text.items ≡ text_of reports.now) }
{
    let mut text = Vec::new(alloc);
    for report in reports {
        let mut line = Text::new(alloc);
        write_line(report, &mut line)?;
        text.extend_from_slice(line.as_bytes())?;
    }
    Ok(text)
}
