//! Reports in order, each once.

ghost use Rattle.std.specs.Prelude.{◌≡◌, IfOk, OnOk, AllPairs, Contains, IsSorted, [], ◌∷◌, ◌++◌};
ghost use Rattle.std.specs.List.Sorted.{IsPermutation};
ghost use Rattle.std.specs.declared.cmp.Ordering.TheVariants.{Less};
ghost use Rattle.report_model.specs.Order.{report_cmp};
ghost use Rattle.report_model.specs.declared.report.Report as report;
ghost use Rattle.report_model.specs.ReportLists.Repeats.{HasEqual, AgreeWhereEqual, IsEachOnce, is_last, with_new};

use crate::order::compare;
use crate::report::Report;
use std::alloc::{AllocError, Global};

// Puts reports in order.
fn put_in_order(reports: &mut Vec<Report>)
    ensures permutation { IsPermutation reports.old.items reports.new.items }
    ensures order { IsSorted report_cmp reports.new.items }
{
    reports.sort_unstable_by(|a, b| compare(a, b));
}

// Whether a report compares `Equal` to the last one of a list.
fn is_last(kept: &[Report], report: &Report) -> bool
    ensures { result ≡ is_last report_cmp kept.now report.now }
{
    match kept.last() {
        Some(last) => compare(last, report).is_eq(),
        None => false,
    }
}

// Appends a report, unless it compares `Equal` to the last one.
fn push_new(kept: &mut Vec<Report>, report: Report) -> Result<(), AllocError>
    ensures { OnOk result (kept.new.items ≡ with_new report_cmp kept.old.items report) }
{
    if is_last(kept.as_slice(), &report) {
        return Ok(());
    }
    kept.push(report)?;
    Ok(())
}

// Reports in order without those that compare `Equal` to the one before.
fn without_repeats(alloc: Global, reports: Vec<Report>) -> Result<Vec<Report>, AllocError>
    requires { IsSorted report_cmp reports.items }
    ensures { IfOk result (λ kept. IsEachOnce report_cmp reports.items kept.items) }
{
    let mut kept = Vec::new(alloc);
    for report in reports {
        push_new(&mut kept, report)?;
    }
    Ok(kept)
}

/// Reports in the order in which they are printed, each once: of those that compare `Equal` one is kept. Where reports that compare
/// `Equal` are the same, as those of one run are, exactly the given ones are there.
pub fn sorted(alloc: Global, reports: Vec<Report>) -> Result<Vec<Report>, AllocError>
    ensures ascending { IfOk result (λ list. AllPairs (λ a b. report_cmp a b ≡ Less) list.items) }
    ensures real { IfOk result (λ list. (r : report.Report) → Contains list.items r → Contains reports.items r) }
    ensures whole { IfOk result (λ list. (r : report.Report) → Contains reports.items r → HasEqual report_cmp list.items r) }
    ensures same { AgreeWhereEqual report_cmp reports.items → IfOk result (λ list. (r : report.Report) → Contains reports.items r → Contains list.items r) }
{
    let mut all = reports;
    put_in_order(&mut all);
    without_repeats(alloc, all)
}
