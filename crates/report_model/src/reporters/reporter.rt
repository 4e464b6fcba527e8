//! What takes reports and renders them.

ghost use Rattle.std.specs.Prelude.{◌≡◌, ◌++◌, ◌∷◌, [], List, ℕ, IfOk, OnOk, OnErr};
ghost use Rattle.report_model.specs.declared.report.Report.{Report as ReportValue};

use crate::report::{Report, copy_report};
use std::alloc::AllocError;

/// Takes reports, and renders them in its style. The style and the name never change.
pub trait Reporter: Drop {
    /// The reports that it holds, in the order in which they were taken.
    ghost taken: { Self → List ReportValue };

    /// The bytes that its style gives for a list.
    ghost rendered: { Self → List ReportValue → List ℕ };

    /// Its name.
    ghost called: { Self → List ℕ };

    /// The name by which `--format` chooses it, the same at every call.
    fn name(&self) -> &str
        ensures { result.now ≡ called self.now };

    /// Takes one more report. An error leaves what it holds as it was.
    fn take(&mut self, report: &Report) -> Result<(), AllocError>
        ensures ok { OnOk result (taken self.new ≡ taken self.old ++ report.now ∷ []) }
        ensures err { OnErr result (taken self.new ≡ taken self.old) }
        ensures style { rendered self.new ≡ rendered self.old }
        ensures same_name { called self.new ≡ called self.old };

    /// Renders the reports that it holds, and is empty then. An error leaves what it holds as it was.
    fn finish(&mut self) -> Result<Vec<u8>, AllocError>
        ensures ok { IfOk result (λ text. text.items ≡ rendered self.old (taken self.old)) }
        ensures emptied { OnOk result (taken self.new ≡ []) }
        ensures err { OnErr result (taken self.new ≡ taken self.old) }
        ensures style { rendered self.new ≡ rendered self.old }
        ensures same_name { called self.new ≡ called self.old };
}

// Puts a copy of a report at the end.
pub(crate) fn keep(kept: &mut Vec<Report>, report: &Report) -> Result<(), AllocError>
    ensures ok { OnOk result (kept.new.items ≡ kept.old.items ++ report.now ∷ []) }
    ensures err { OnErr result (kept.new.items ≡ kept.old.items) }
{
    let copy = copy_report(report)?;
    kept.push(copy)?;
    Ok(())
}
