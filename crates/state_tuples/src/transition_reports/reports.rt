//! Reports of taken rules.

ghost use Rattle.std.specs.Prelude.{◌≡◌, ◌≤◌, IfOk, length, ℕ};
ghost use Rattle.path_model.specs.CheckerModel.Choices.{Taken};
ghost use Rattle.path_model.specs.CheckerModel.Happenings.{Function};
ghost use Rattle.path_model.specs.CheckerModel.Reports.{report_of};
ghost use Rattle.hole_matcher.specs.HoleBindings.Bindings.{binding_of};
ghost use Rattle.hole_matcher.specs.HoleMessages.Sources.{maybe_object};
ghost use Rattle.metal_tree.specs.Whole.{machine_view};
ghost use Rattle.state_tuples.specs.TransitionReports.TakenRules.{IsTaken, checker_at, report_with};
ghost use Rattle.state_tuples.specs.Values.{happening_in};

use crate::transition_reports::checker::Checker;
use crate::transition_reports::places::token_of;
use crate::transition_reports::texts::{copied_name, message_of, object_text};
use c_tree::Token;
use flow_graph::Event;
use hole_matcher::Binding;
use objects::Object;
use report_model::Report;
use std::alloc::{AllocError, Global};
use typed_unit::TypedUnit;

// The report of a rule at a token.
fn report_at(
    alloc: Global,
    checker: &Checker,
    unit: &TypedUnit,
    token: &Token,
    object: Option<&Object>,
    rule: u16,
    binding: &Binding,
) -> Result<Report, AllocError>
    requires low { 1 ≤ rule }
    requires high { rule ≤ length checker.now.machine.now.rules.now }
    ensures { (depth : ℕ) (function : ℕ) → IfOk result (λ report. report ≡ report_with checker.now unit.now depth function token.now (maybe_object object.entry) rule (binding_of binding.now)) }
{
    let file = copied_name(alloc, checker.names, token.source)?;
    let checker_name = copied_name(alloc, checker.names, checker.machine.name)?;
    let text = object_text(alloc, checker.names, object)?;
    let message = message_of(alloc, checker, unit, object, rule, binding)?;
    Ok(Report {
        place: token.place,
        file,
        line: token.line,
        col: token.col,
        checker: checker.number,
        checker_name,
        rule,
        object: text,
        message,
    })
}

/// The report of a rule of a checker, by its number from 1 on, that an object takes at an event of a unit with this binding, or that
/// the global state takes, if no object is given. It is `None` where the rule has no action, and where no token of the unit stands at
/// the place of the event.
pub fn report_of(
    alloc: Global,
    checker: &Checker,
    unit: &TypedUnit,
    event: &Event,
    object: Option<&Object>,
    rule: u16,
    binding: &Binding,
) -> Result<Option<Report>, AllocError>
    requires low { 1 ≤ rule }
    requires high { rule ≤ length checker.now.machine.now.rules.now }
    ensures { (depth : ℕ) (function : Function) (t : Taken) → IsTaken (machine_view checker.now.machine.now) rule (binding_of binding.now) t → IfOk result (λ report. report ≡ report_of (checker_at checker.now depth) (happening_in unit.now event.now) function (maybe_object object.entry) t) }
{
    if checker.machine.rule(rule).action.is_none() {
        return Ok(None);
    }
    let Some(token) = token_of(unit, event) else {
        return Ok(None);
    };
    let report = report_at(alloc, checker, unit, token, object, rule, binding)?;
    Ok(Some(report))
}
