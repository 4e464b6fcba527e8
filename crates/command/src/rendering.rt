//! What a run is due once there is a list of reports, and maybe a count of entries.

ghost use Rattle.std.specs.Prelude.{◌≡◌, ◌≢◌, ◌<◌, ℕ, [], map, slice_get, vec_len, IfOk, IfSome, OnOk, Some};
ghost use Rattle.command.specs.Rendered.{IsPlanFor, IsText};

use crate::lines::write_lines;
use crate::statistics::line_for;
use crate::status::{Status, status_of};
use mx_base::Text;
use report_model::{Report, Reporter, render_at};
use std::alloc::{AllocError, Global};

/// A status, the text for `out` and the line for `errs`.
#[derive(Drop)]
pub(crate) struct Plan {
    pub status: Status,
    pub text: Vec<u8>,
    pub line: Text,
}

/// A line for each report, or what the reporter at a place makes of them.
fn render(
    alloc: Global,
    place: Option<usize>,
    reporters: &mut Vec<Box<dyn Reporter>>,
    reports: &[Report],
) -> Result<Vec<u8>, AllocError>
    requires { IfSome place (λ p. p < vec_len reporters.old) }
    ensures names { map (λ b. called b) reporters.new.items ≡ map (λ b. called b) reporters.old.items }
    ensures styles { map (λ b. rendered b) reporters.new.items ≡ map (λ b. rendered b) reporters.old.items }
    ensures others { (k : ℕ) → place ≢ Some k → slice_get (map (λ b. taken b) reporters.new.items) k ≡ slice_get (map (λ b. taken b) reporters.old.items) k }
    ensures empty { OnOk result (IfSome place (λ p. slice_get (map (λ b. taken b) reporters.new.items) p ≡ Some [])) }
    ensures text { IfOk result (λ text. IsText place (map (λ b. rendered b reports.now) reporters.old.items) reports.now text.items) }
{
    match place {
        None => write_lines(alloc, reports),
        Some(place) => render_at(reporters, place, reports),
    }
}

/// What is due for a list of reports, and for so many entries, where they were counted.
pub(crate) fn plan_reports(
    alloc: Global,
    place: Option<usize>,
    reporters: &mut Vec<Box<dyn Reporter>>,
    reports: &[Report],
    entries: Option<u64>,
) -> Result<Plan, AllocError>
    requires { IfSome place (λ p. p < vec_len reporters.old) }
    ensures names { map (λ b. called b) reporters.new.items ≡ map (λ b. called b) reporters.old.items }
    ensures styles { map (λ b. rendered b) reporters.new.items ≡ map (λ b. rendered b) reporters.old.items }
    ensures others { (k : ℕ) → place ≢ Some k → slice_get (map (λ b. taken b) reporters.new.items) k ≡ slice_get (map (λ b. taken b) reporters.old.items) k }
    ensures empty { OnOk result (IfSome place (λ p. slice_get (map (λ b. taken b) reporters.new.items) p ≡ Some [])) }
    ensures plan { IfOk result (λ plan. IsPlanFor place (map (λ b. rendered b reports.now) reporters.old.items) reports.now entries plan.status plan.text.items plan.line) }
{
    let text = render(alloc, place, reporters, reports)?;
    let status = status_of(reports);
    let line = line_for(alloc, entries)?;
    Ok(Plan { status, text, line })
}
