//! Reports: the rules with an action that a checker takes, each at its place.

ghost use Rattle.std.specs.Prelude.{◌≡◌, IfOk};

use c_tree::Place;
use mx_base::Text;
use std::alloc::AllocError;

/// An error transition that a checker takes.
#[derive(Drop)]
pub struct Report {
    /// The first token of the node at which the rule is taken.
    pub place: Place,
    /// The presumed name of the file.
    pub file: Text,
    /// The presumed line: lines count from 1, and from the number that a line marker gives, which may be 0.
    pub line: u32,
    /// The column in bytes, from 1.
    pub col: u32,
    /// The checker's place among the checkers of the command, from 0.
    pub checker: u16,
    pub checker_name: Text,
    /// The rule's number in its checker, from 1.
    pub rule: u16,
    /// The text of the object that takes the rule, if one does.
    pub object: Option<Text>,
    pub message: Text,
}

/// An equal report, in memory of its own.
pub fn copy_report(report: &Report) -> Result<Report, AllocError>
    ensures { IfOk result (λ copy. copy ≡ report.now) }
{
    let file = report.file.copy()?;
    let checker_name = report.checker_name.copy()?;
    let message = report.message.copy()?;
    let object = match &report.object {
        None => None,
        Some(object) => Some(object.copy()?),
    };
    Ok(Report {
        place: report.place,
        file,
        line: report.line,
        col: report.col,
        checker: report.checker,
        checker_name,
        rule: report.rule,
        object,
        message,
    })
}
