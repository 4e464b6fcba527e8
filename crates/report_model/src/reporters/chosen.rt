//! The chosen reporter at work: found by its name, emptied, handed the reports, and asked for their rendering.

ghost use Rattle.std.specs.Prelude.{◌≡◌, ◌≢◌, ◌<◌, [], ℕ, IfOk, IfSome, OnOk, vec_len, map, length, slice_get, Some};
ghost use Rattle.std.specs.List.{position, position_or_len};
ghost use Rattle.std.specs.Str.{bytes_eq};

use crate::report::Report;
use crate::reporters::reporter::Reporter;
use std::alloc::AllocError;

// Empties a reporter, hands it the reports, and renders them.
fn render_one(reporter: &mut dyn Reporter, reports: &[Report]) -> Result<Vec<u8>, AllocError>
    ensures text { IfOk result (λ text. text.items ≡ rendered reporter.old reports.now) }
    ensures empty { OnOk result (taken reporter.new ≡ []) }
    ensures style { rendered reporter.new ≡ rendered reporter.old }
    ensures same_name { called reporter.new ≡ called reporter.old }
{
    reporter.finish()?;
    for report in reports {
        reporter.take(report)?;
    }
    reporter.finish()
}

// The same of a box.
fn render_box(reporter: &mut Box<dyn Reporter>, reports: &[Report]) -> Result<Vec<u8>, AllocError>
    ensures text { IfOk result (λ text. text.items ≡ rendered reporter.old reports.now) }
    ensures empty { OnOk result (taken reporter.new ≡ []) }
    ensures style { rendered reporter.new ≡ rendered reporter.old }
    ensures same_name { called reporter.new ≡ called reporter.old }
{
    render_one(&mut **reporter, reports)
}

/// What the reporter at an index renders for exactly these reports, whatever it held before. It is empty then. The other reporters
/// keep what they hold, and all of them their names and styles. An error leaves the chosen one with what it has taken so far.
pub fn render_at(
    reporters: &mut Vec<Box<dyn Reporter>>,
    index: usize,
    reports: &[Report],
) -> Result<Vec<u8>, AllocError>
    requires { index < vec_len reporters.old }
    ensures names { map (λ b. called b) reporters.new.items ≡ map (λ b. called b) reporters.old.items }
    ensures styles { map (λ b. rendered b) reporters.new.items ≡ map (λ b. rendered b) reporters.old.items }
    ensures others { (k : ℕ) → k ≢ index → slice_get (map (λ b. taken b) reporters.new.items) k ≡ slice_get (map (λ b. taken b) reporters.old.items) k }
    ensures empty { OnOk result (slice_get (map (λ b. taken b) reporters.new.items) index ≡ Some []) }
    ensures text { IfOk result (λ text. slice_get (map (λ b. rendered b reports.now) reporters.old.items) index ≡ Some text.items) }
{
    render_box(&mut reporters[index], reports)
}

fn has_name(reporter: &Box<dyn Reporter>, name: &[u8]) -> bool
    ensures { result ≡ bytes_eq name.now (called reporter.now) }
{
    name == reporter.name().as_bytes()
}

// The place of the first reporter of a name, or the number of reporters.
fn place_or_count(reporters: &[Box<dyn Reporter>], name: &[u8]) -> usize
    ensures { result ≡ position_or_len (bytes_eq name.now) (map (λ b. called b) reporters.now) }
{
    let mut place = 0;
    for reporter in reporters {
        if has_name(reporter, name) {
            return place;
        }
        place += 1;
    }
    place
}

/// The place of the first reporter of a name, which is given by its bytes. Places count from 0.
pub fn place_of(reporters: &[Box<dyn Reporter>], name: &[u8]) -> Option<usize>
    ensures within { IfSome result (λ place. place < length reporters.now) }
    ensures first { result ≡ position (bytes_eq name.now) (map (λ b. called b) reporters.now) }
{
    let place = place_or_count(reporters, name);
    if place == reporters.len() {
        return None;
    }
    Some(place)
}
