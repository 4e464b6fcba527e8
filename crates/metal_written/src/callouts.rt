//! Callouts as they are written, and the table of those that there are.

ghost use Rattle.std.specs.Prelude.{◌≡◌, ◌≤◌, length, IfSome};
ghost use Rattle.std.specs.Option.{option_map};
ghost use Rattle.c_tree.specs.Symbol.{symbol_of};
ghost use Rattle.metal_grammar.specs.Callouts.{row_of_hole, row_of_both, row_of_text, row_of_digit, row_of, hole_asked, literal_asked};
ghost use Rattle.metal_grammar.specs.Grammar.{is_digit, is_callout};
ghost use Rattle.metal_tree.specs.Views.{row_view};
ghost use Rattle.metal_written.specs.Written.{maybe_literal_view, callout_view};

use crate::words::is_spelled;
use crate::written::{Argument, Literal, WrittenCallout};
use c_tree::{Token, TokenKind};
use metal_tree::CalloutRow;
use mx_base::Names;

/// Whether the token is `0` or `1`, and spelled so.
fn is_digit(names: &Names, token: &Token) -> bool
    ensures { result ≡ is_digit names.now (symbol_of token.now) }
{
    match token.kind {
        TokenKind::Int { .. } => is_spelled(names, b"0", token.name)
            || is_spelled(names, b"1", token.name),
        _ => false,
    }
}

/// Whether a constant that is a callout is `0` or `1`.
pub fn is_callout(names: &Names, callout: WrittenCallout) -> bool
    ensures { result ≡ is_callout names.now (callout_view callout.entry) }
{
    match callout {
        WrittenCallout::Digit { token } => is_digit(names, token),
        WrittenCallout::Asked { .. } => true,
    }
}

/// The row of a callout that asks of a hole alone.
fn row_of_hole(names: &Names, name: u32) -> Option<CalloutRow>
    ensures { option_map row_view result ≡ row_of_hole names.now name }
{
    if is_spelled(names, b"mc_is_const", name) {
        Some(CalloutRow::IsConst)
    } else if is_spelled(names, b"mc_is_global", name) {
        Some(CalloutRow::IsGlobal)
    } else if is_spelled(names, b"mc_is_param", name) {
        Some(CalloutRow::IsParam)
    } else if is_spelled(names, b"mc_is_local", name) {
        Some(CalloutRow::IsLocal)
    } else {
        None
    }
}

/// The row of a callout that asks of a hole and a text.
fn row_of_both(names: &Names, name: u32) -> Option<CalloutRow>
    ensures { option_map row_view result ≡ row_of_both names.now name }
{
    if is_spelled(names, b"mc_name_is", name) {
        Some(CalloutRow::NameIs)
    } else {
        None
    }
}

/// The row of a callout that asks of a text alone.
fn row_of_text(names: &Names, name: u32) -> Option<CalloutRow>
    ensures { option_map row_view result ≡ row_of_text names.now name }
{
    if is_spelled(names, b"mc_in_function", name) {
        Some(CalloutRow::InFunction)
    } else {
        None
    }
}

/// The row of a callout that is a constant.
fn row_of_digit(names: &Names, token: &Token) -> Option<CalloutRow>
    ensures { option_map row_view result ≡ row_of_digit names.now (symbol_of token.now) }
{
    match token.kind {
        TokenKind::Int { .. } => if is_spelled(names, b"0", token.name) {
            Some(CalloutRow::NeverHolds)
        } else {
            Some(CalloutRow::AlwaysHolds)
        },
        _ => None,
    }
}

/// The row of a callout, whose arguments are as many as the row's and of its kinds.
pub fn row_of(names: &Names, callout: WrittenCallout) -> Option<CalloutRow>
    ensures { option_map row_view result ≡ row_of names.now (callout_view callout.entry) }
{
    match callout {
        WrittenCallout::Digit { token } => row_of_digit(names, token),
        WrittenCallout::Asked {
            name,
            argument,
            text,
        } => match argument {
            Argument::Name(_) => match text {
                None => row_of_hole(names, name),
                Some(_) => row_of_both(names, name),
            },
            Argument::Text(_) => match text {
                None => row_of_text(names, name),
                Some(_) => None,
            },
        },
    }
}

/// The name of the hole that a callout asks of.
pub fn hole_asked(callout: WrittenCallout) -> Option<u32>
    ensures { result ≡ hole_asked (callout_view callout.entry) }
{
    match callout {
        WrittenCallout::Asked {
            argument: Argument::Name(hole),
            ..
        } => Some(hole),
        _ => None,
    }
}

/// The string that a callout asks of.
pub fn literal_asked(callout: WrittenCallout) -> Option<Literal>
    ensures { maybe_literal_view result ≡ literal_asked (callout_view callout.entry) }
{
    match callout {
        WrittenCallout::Digit { .. } => None,
        WrittenCallout::Asked { argument, text, .. } => match argument {
            Argument::Name(_) => text,
            Argument::Text(literal) => Some(literal),
        },
    }
}
