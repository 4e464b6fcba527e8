//! The texts that a report has.

ghost use Rattle.std.specs.Prelude.{◌≡◌, ◌≤◌, IfOk, length, ℕ};
ghost use Rattle.std.specs.Option.{option_map};
ghost use Rattle.c_objects.specs.Text.{text_of, object_text};
ghost use Rattle.hole_matcher.specs.HoleBindings.Bindings.{binding_of};
ghost use Rattle.hole_matcher.specs.HoleMessages.RuleMessages.{rule_message};
ghost use Rattle.hole_matcher.specs.HoleMessages.Sources.{source_in, maybe_object};
ghost use Rattle.metal_tree.specs.Whole.{machine_view};
ghost use Rattle.objects.specs.Units.{facts_in};

use crate::transition_reports::checker::Checker;
use hole_matcher::{Binding, name_text, write_message};
use mx_base::{Names, Text};
use objects::{Object, write_text};
use std::alloc::{AllocError, Global};
use typed_unit::TypedUnit;

/// The text of a name.
pub(crate) fn copied_name(alloc: Global, names: &Names, name: u32) -> Result<Text, AllocError>
    ensures { IfOk result (λ text. text ≡ text_of names.now name) }
{
    Text::from_bytes(alloc, name_text(names, name))
}

/// The text of an object, if there is one.
pub(crate) fn object_text(
    alloc: Global,
    names: &Names,
    object: Option<&Object>,
) -> Result<Option<Text>, AllocError>
    ensures { IfOk result (λ text. text ≡ option_map (object_text names.now) (maybe_object object.entry)) }
{
    let Some(object) = object else {
        return Ok(None);
    };
    let mut text = Text::new(alloc);
    write_text(object, names, &mut text)?;
    Ok(Some(text))
}

/// The message of a rule.
pub(crate) fn message_of(
    alloc: Global,
    checker: &Checker,
    unit: &TypedUnit,
    object: Option<&Object>,
    rule: u16,
    binding: &Binding,
) -> Result<Text, AllocError>
    requires low { 1 ≤ rule }
    requires high { rule ≤ length checker.now.machine.now.rules.now }
    ensures { (depth : ℕ) (function : ℕ) → IfOk result (λ text. text ≡ rule_message (machine_view checker.now.machine.now) rule (facts_in unit.now) depth function (source_in unit.now checker.now.names.now) (binding_of binding.now) (maybe_object object.entry)) }
{
    let mut text = Text::new(alloc);
    write_message(
        alloc,
        checker.machine,
        rule,
        binding,
        object,
        unit,
        checker.names,
        &mut text,
    )?;
    Ok(text)
}
