//! The order in which reports are printed.

ghost use Rattle.std.specs.Prelude.{◌≡◌};
ghost use Rattle.report_model.specs.Order.{object_cmp, report_cmp};

use crate::report::Report;
use mx_base::Text;
use std::cmp::Ordering;

/// Compares two reports by file, token, checker, rule, object (none first) and message. They are `Equal` exactly where they
/// agree in all of these.
pub fn compare(a: &Report, b: &Report) -> Ordering
    ensures { result ≡ report_cmp a.now b.now }
{
    let place = (a.place.file.cmp(&b.place.file)).then(a.place.token.cmp(&b.place.token));
    let rule = a.checker.cmp(&b.checker).then(a.rule.cmp(&b.rule));
    let object = compare_objects(&a.object, &b.object);
    let message = a.message.as_bytes().cmp(b.message.as_bytes());
    place.then(rule).then(object).then(message)
}

fn compare_objects(a: &Option<Text>, b: &Option<Text>) -> Ordering
    ensures { result ≡ object_cmp a.now b.now }
{
    match (a, b) {
        (None, None) => Ordering::Equal,
        (None, Some(_)) => Ordering::Less,
        (Some(_), None) => Ordering::Greater,
        (Some(a), Some(b)) => a.as_bytes().cmp(b.as_bytes()),
    }
}
