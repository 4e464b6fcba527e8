//! Callouts as they are written.

ghost use Rattle.std.specs.Prelude.{◌≤◌, length, IfSome};
ghost use Rattle.c_tree.specs.Symbol.{symbols_of};
ghost use Rattle.metal_grammar.specs.Ways.Steps as steps;
ghost use Rattle.metal_clauses.specs.MetalParts.Given.{Finds};
ghost use Rattle.metal_written.specs.Written.{argument_view, maybe_literal_view, callout_view};
ghost use Rattle.metal_clauses.specs.Ways.Steps.{callout_behind};

use crate::metal_parts::front::{take_integer, take_literal, take_word};
use c_expr::after_sign;
use c_tree::{Punctuator, Token};
use metal_written::{Argument, Literal, WrittenCallout};

/// The argument in front.
fn read_argument<'a>(tokens: &'a [Token]) -> Option<(Argument, &'a [Token])>
    ensures found { Finds argument_view result (steps.read_argument (symbols_of tokens.now)) }
    ensures shorter { IfSome result (λ r. length r.1.now ≤ length tokens.now) }
{
    if let Some((name, rest)) = take_word(tokens) {
        return Some((Argument::Name(name), rest));
    }
    let (literal, rest) = take_literal(tokens)?;
    Some((Argument::Text(literal), rest))
}

/// A comma and a text, if they are there.
fn read_text<'a>(tokens: &'a [Token]) -> Option<(Option<Literal>, &'a [Token])>
    ensures found { Finds maybe_literal_view result (steps.read_text (symbols_of tokens.now)) }
    ensures shorter { IfSome result (λ r. length r.1.now ≤ length tokens.now) }
{
    let Some(behind) = after_sign(Punctuator::Comma, tokens) else {
        return Some((None, tokens));
    };
    let (literal, rest) = take_literal(behind)?;
    Some((Some(literal), rest))
}

/// What follows the name of a callout.
fn read_asked<'a>(name: u32, tokens: &'a [Token]) -> Option<(WrittenCallout<'a>, &'a [Token])>
    ensures found { Finds callout_view result (callout_behind name (symbols_of tokens.now)) }
    ensures shorter { IfSome result (λ r. length r.1.now ≤ length tokens.now) }
{
    let inside = after_sign(Punctuator::OpenParen, tokens)?;
    let (argument, behind) = read_argument(inside)?;
    let (text, end) = read_text(behind)?;
    let rest = after_sign(Punctuator::CloseParen, end)?;
    Some((
        WrittenCallout::Asked {
            name,
            argument,
            text,
        },
        rest,
    ))
}

/// The callout in front.
pub fn read_callout<'a>(tokens: &'a [Token]) -> Option<(WrittenCallout<'a>, &'a [Token])>
    ensures found { Finds callout_view result (steps.read_callout (symbols_of tokens.now)) }
    ensures shorter { IfSome result (λ r. length r.1.now ≤ length tokens.now) }
{
    if let Some((name, behind)) = take_word(tokens) {
        return read_asked(name, behind);
    }
    let (token, rest) = take_integer(tokens)?;
    Some((WrittenCallout::Digit { token }, rest))
}
