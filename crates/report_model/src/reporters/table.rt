//! The style `table`: reports in columns, and how many they are.

ghost use Rattle.std.specs.Prelude.{◌≡◌, ◌++◌, ◌≤◌, [], IfOk, OnOk, codes, flat_map};
ghost use Rattle.report_model.specs.OfReporters.Styles.{right_in, left_in, table_row, report_table};

use crate::report::Report;
use crate::reporters::pieces::{append_all, blanks};
use crate::reporters::reporter::{Reporter, keep};
use itoa::Buffer;
use mx_base::Text;
use std::alloc::{AllocError, Global};

// Appends a text right in its places.
fn write_right(places: usize, text: &[u8], into: &mut Text) -> Result<(), AllocError>
    requires { places ≤ 20 }
    ensures { OnOk result (into.new ≡ into.old ++ right_in places text.now) }
{
    into.push_all(blanks(places, text))?;
    into.push_all(text)
}

// Appends a text left in its places.
fn write_left(places: usize, text: &[u8], into: &mut Text) -> Result<(), AllocError>
    requires { places ≤ 20 }
    ensures { OnOk result (into.new ≡ into.old ++ left_in places text.now) }
{
    into.push_all(text)?;
    into.push_all(blanks(places, text))
}

// Appends the row of a report.
fn write_row(report: &Report, into: &mut Text) -> Result<(), AllocError>
    ensures { OnOk result (into.new ≡ into.old ++ table_row report.now) }
{
    let mut line = Buffer::new();
    let mut col = Buffer::new();
    write_right(8, line.format(report.line).as_bytes(), into)?;
    into.push_all(b":")?;
    write_left(5, col.format(report.col).as_bytes(), into)?;
    into.push_all(b" ")?;
    write_left(20, report.checker_name.as_bytes(), into)?;
    let behind = [
        b" ",
        report.file.as_bytes(),
        b": ",
        report.message.as_bytes(),
        b"\n",
    ];
    append_all(&behind, into)
}

// Appends the rows of reports, in order.
fn write_rows(reports: &[Report], into: &mut Text) -> Result<(), AllocError>
    ensures { OnOk result (into.new ≡ into.old ++ flat_map table_row reports.now) }
{
    for report in reports {
        write_row(report, into)?;
    }
    Ok(())
}

// A row for each report, and their count.
fn table_text(alloc: Global, reports: &[Report]) -> Result<Vec<u8>, AllocError>
    ensures { IfOk result (λ text. text.items ≡ report_table reports.now) }
{
    let mut text = Text::new(alloc);
    write_rows(reports, &mut text)?;
    let mut count = Buffer::new();
    let last = [count.format(reports.len()).as_bytes(), b" reports\n"];
    append_all(&last, &mut text)?;
    let bytes = Vec::from_slice(alloc, text.as_bytes())?;
    Ok(bytes)
}

/// Renders reports as rows of columns, and behind them how many reports there are.
#[derive(Drop)]
pub struct Table {
    alloc: Global,
    reports: Vec<Report>,
}

impl Table {
    /// A reporter that holds no report. It takes no memory yet.
    pub fn new(alloc: Global) -> Table
        ensures { ⟦<Table as Reporter>⟧.taken result ≡ [] }
    {
        Table {
            alloc,
            reports: Vec::new(alloc),
        }
    }
}

impl Reporter for Table {
    ghost taken = { λ s. s.reports.items };

    ghost rendered = { λ _. report_table };

    ghost called = { λ _. codes "table" };

    fn name(&self) -> &str {
        "table"
    }

    fn take(&mut self, report: &Report) -> Result<(), AllocError> {
        keep(&mut self.reports, report)
    }

    fn finish(&mut self) -> Result<Vec<u8>, AllocError> {
        let text = table_text(self.alloc, &self.reports)?;
        self.reports.clear();
        Ok(text)
    }
}
