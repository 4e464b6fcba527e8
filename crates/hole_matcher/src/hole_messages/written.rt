//! Messages out of their pieces.

ghost use Rattle.std.specs.Prelude.{◌≡◌, ◌≤◌, ◌++◌, IfOk, OnOk, OnErr, length, map, ℕ};
ghost use Rattle.std.specs.Option.{option_map};
ghost use Rattle.hole_matcher.specs.HoleBindings.Bindings.{binding_of};
ghost use Rattle.hole_matcher.specs.HoleBindings.Settings.{setting_in};
ghost use Rattle.hole_matching.specs.Message.{object_written, hole_written, piece_written, message, shortened};
ghost use Rattle.hole_matcher.specs.HoleMessages.RuleMessages.{rule_message};
ghost use Rattle.hole_matcher.specs.HoleMessages.Sources.{source_in, maybe_object};
ghost use Rattle.metal_tree.specs.Views.{piece_view};
ghost use Rattle.metal_tree.specs.Whole.{machine_view};
ghost use Rattle.objects.specs.Pieces.{HasBegun};
ghost use Rattle.objects.specs.Units.{facts_in};

use crate::hole_bindings::{Binding, Setting};
use crate::hole_messages::short::write_short;
use crate::hole_messages::taken::{Source, slot_text};
use metal_tree::{Machine, Piece};
use mx_base::{Names, Text};
use objects::{Object, write_text};
use std::alloc::{AllocError, Global};
use typed_unit::TypedUnit;

// The text of an object, if there is one.
fn object_text(
    alloc: Global,
    unit: &TypedUnit,
    names: &Names,
    object: Option<&Object>,
) -> Result<Text, AllocError>
    ensures { IfOk result (λ text. text ≡ object_written (source_in unit.now names.now) (maybe_object object.entry)) }
{
    let mut text = Text::new(alloc);
    if let Some(object) = object {
        write_text(object, names, &mut text)?;
    }
    Ok(text)
}

// Appends the text of a hole: that of a state variable's object, or what another hole took as it is spelled.
fn write_hole(
    alloc: Global,
    setting: &Setting,
    names: &Names,
    binding: &Binding,
    object: Option<&Object>,
    hole: u8,
    into: &mut Text,
) -> Result<(), AllocError>
    ensures ok { OnOk result (into.new ≡ into.old ++ shortened (hole_written (setting_in setting.now) (source_in setting.now.unit.now names.now) (binding_of binding.now) (maybe_object object.entry) hole)) }
    ensures err { OnErr result (HasBegun into.old (shortened (hole_written (setting_in setting.now) (source_in setting.now.unit.now names.now) (binding_of binding.now) (maybe_object object.entry) hole)) into.new) }
{
    if hole < setting.variables {
        let text = object_text(alloc, setting.unit, names, object)?;
        return write_short(text.as_bytes(), into);
    }
    let source = Source {
        names,
        unit: setting.unit,
    };
    let text = slot_text(&source, binding.slot(hole));
    write_short(text.as_bytes(), into)
}

// Appends a piece of a message.
fn write_piece(
    alloc: Global,
    setting: &Setting,
    names: &Names,
    binding: &Binding,
    object: Option<&Object>,
    piece: Piece,
    into: &mut Text,
) -> Result<(), AllocError>
    ensures ok { OnOk result (into.new ≡ into.old ++ piece_written (setting_in setting.now) (source_in setting.now.unit.now names.now) (binding_of binding.now) (maybe_object object.entry) (piece_view piece.entry)) }
    ensures err { OnErr result (HasBegun into.old (piece_written (setting_in setting.now) (source_in setting.now.unit.now names.now) (binding_of binding.now) (maybe_object object.entry) (piece_view piece.entry)) into.new) }
{
    match piece {
        Piece::Literal { bytes } => into.push_all(bytes),
        Piece::Hole(hole) => write_hole(alloc, setting, names, binding, object, hole, into),
    }
}

// Appends the message of these pieces.
fn write_pieces(
    alloc: Global,
    setting: &Setting,
    names: &Names,
    binding: &Binding,
    object: Option<&Object>,
    pieces: &[Piece],
    into: &mut Text,
) -> Result<(), AllocError>
    ensures ok { OnOk result (into.new ≡ into.old ++ message (setting_in setting.now) (source_in setting.now.unit.now names.now) (map piece_view pieces.now) (binding_of binding.now) (maybe_object object.entry)) }
    ensures err { OnErr result (HasBegun into.old (message (setting_in setting.now) (source_in setting.now.unit.now names.now) (map piece_view pieces.now) (binding_of binding.now) (maybe_object object.entry)) into.new) }
{
    for piece in pieces {
        write_piece(alloc, setting, names, binding, object, *piece, into)?;
    }
    Ok(())
}

/// Appends the message of a rule: its pieces, each hole of it replaced by the text of the state variable's object, or by what the
/// hole took as it is spelled, with one blank between tokens. What replaces a hole is cut behind 200 bytes. A rule without an
/// action has no message. An error leaves a beginning of the message appended.
pub fn write_message(
    alloc: Global,
    machine: &Machine,
    rule: u16,
    binding: &Binding,
    object: Option<&Object>,
    unit: &TypedUnit,
    names: &Names,
    into: &mut Text,
) -> Result<(), AllocError>
    requires low { 1 ≤ rule }
    requires high { rule ≤ length machine.now.rules.now }
    ensures ok { (depth : ℕ) (function : ℕ) → OnOk result (into.new ≡ into.old ++ rule_message (machine_view machine.now) rule (facts_in unit.now) depth function (source_in unit.now names.now) (binding_of binding.now) (maybe_object object.entry)) }
    ensures err { (depth : ℕ) (function : ℕ) → OnErr result (HasBegun into.old (rule_message (machine_view machine.now) rule (facts_in unit.now) depth function (source_in unit.now names.now) (binding_of binding.now) (maybe_object object.entry)) into.new) }
{
    let setting = Setting::new(machine, unit, 0, 8);
    match machine.rule(rule).action {
        Some(action) => write_pieces(alloc, &setting, names, binding, object, action.pieces, into),
        None => Ok(()),
    }
}
