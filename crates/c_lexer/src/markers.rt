//! What the marker lines of a preprocessor say.

ghost use Rattle.std.specs.Prelude.{◌≡◌, ◌<◌, ◌≤◌, ◌^◌, IfOk, IfSome, length, codes, bytes_eq, ◌==◌, ◌&&◌, drop};
ghost use Rattle.std.specs.Option.{option_map};
ghost use Rattle.c_lexer.specs.CReading.Markers.{after_gaps, are_flags, unescaped, behind_number, numbered, first_word, begins_gap, after_line_word, marker_of};
ghost use Rattle.c_lexer.specs.Found.{marker_view, following_line};

use crate::bytes::{Class, begins, front_len, is_gap, within};
use crate::constants::value_up_to;
use crate::literals::quoted;
use std::alloc::{AllocError, Global};

/// What a marker line says.
#[derive(Clone, Copy)]
pub enum Marker<'a> {
    /// Nothing: its line is blank.
    Skipped,
    /// The number of the following line, and the file from there on, if one is named. The name stands as it does in its string.
    Renumbers { line: u32, file: Option<&'a [u8]> },
}

/// What follows the spaces and tabs in front.
fn after_gaps(text: &[u8]) -> &[u8]
    ensures { result.now ≡ after_gaps text.now }
{
    &text[front_len(Class::Gap, text)..]
}

/// Whether these are spaces and tabs, and single flags from 1 to 4 behind them.
fn are_flags(text: &[u8]) -> bool
    ensures { result ≡ are_flags text.now }
{
    let mut rest = text;
    'going: while let [front, behind @ ..] = rest {
        if !is_gap(*front) {
            return false;
        }
        rest = match behind {
            [flag, further @ ..] if within(b'1', b'4', *flag) => further,
            _ => behind,
        };
    }
    true
}

/// The name that a string stands for: `\\` stands for `\` and `\"` for `"`.
pub fn unescaped(alloc: Global, text: &[u8]) -> Result<Vec<u8>, AllocError>
    ensures { IfOk result (λ name. name.items ≡ unescaped text.now) }
{
    let mut name = Vec::new(alloc);
    let mut rest = text;
    'going: while let [front, behind @ ..] = rest {
        match behind {
            [escaped, further @ ..] if *front == b'\\' && (*escaped == b'\\' || *escaped == b'"') =>
                {
                    name.push(*escaped)?;
                    rest = further;
                }
            _ => {
                name.push(*front)?;
                rest = behind;
            }
        }
    }
    Ok(name)
}

/// What stands behind the line's number: a string or none, and flags.
#[tactic(auto, unfolding(crate::specs::CReading::Markers::behind_number))]
fn behind_number(text: &[u8], line: u32) -> Option<Marker<'_>>
    requires { line ≤ 2147483647 }
    ensures says { option_map marker_view result ≡ behind_number text.now line }
    ensures line { IfSome result (λ marker. following_line marker ≤ 2147483647) }
{
    let string = after_gaps(text);
    if !begins(b'"', string) {
        if are_flags(text) {
            return Some(Marker::Renumbers { line, file: None });
        }
        return None;
    }
    let inside = &string[1..];
    let Some(count) = quoted(b'"', inside) else {
        return None;
    };
    if are_flags(&inside[count..]) {
        let file = Some(&inside[..count.saturating_sub(1)]);
        return Some(Marker::Renumbers { line, file });
    }
    None
}

/// A line's number and what stands behind it.
#[tactic(auto, unfolding(crate::specs::CReading::Markers::numbered))]
fn numbered(text: &[u8]) -> Option<Marker<'_>>
    ensures says { option_map marker_view result ≡ numbered text.now }
    ensures line { IfSome result (λ marker. following_line marker ≤ 2147483647) }
{
    let count = front_len(Class::Digit, text);
    if count == 0 {
        return None;
    }
    let Some(line) = value_up_to(0x7fff_ffff, 10, &text[..count]) else {
        return None;
    };
    behind_number(&text[count..], line as u32)
}

/// The word in front, perhaps empty.
fn first_word(text: &[u8]) -> &[u8]
    ensures value { result.now ≡ first_word text.now }
    ensures within { length result.now ≤ length text.now }
{
    &text[..front_len(Class::Word, text)]
}

/// What follows the word `line` and the spaces and tabs behind it, if they are there.
#[tactic(auto, unfolding(crate::specs::CReading::Markers::after_line_word))]
fn after_line_word(text: &[u8]) -> &[u8]
    ensures { result.now ≡ after_line_word text.now }
{
    if first_word(text) != b"line".as_slice() {
        return text;
    }
    let behind = &text[4..];
    if begins_gap(behind) {
        after_gaps(behind)
    } else {
        text
    }
}

/// Whether a space or tab is in front.
fn begins_gap(text: &[u8]) -> bool
    ensures { result ≡ begins_gap text.now }
{
    match text {
        [] => false,
        [front, ..] => is_gap(*front),
    }
}

/// What a marker line says, by its bytes behind `#` and before its end.
#[tactic(auto, unfolding(crate::specs::CReading::Markers::marker_of))]
pub fn marker_of(text: &[u8]) -> Option<Marker<'_>>
    ensures says { option_map marker_view result ≡ marker_of text.now }
    ensures line { IfSome result (λ marker. following_line marker ≤ 2147483647) }
{
    let inside = after_gaps(text);
    let word = first_word(inside);
    if word == b"pragma".as_slice() || word == b"ident".as_slice() {
        return Some(Marker::Skipped);
    }
    numbered(after_line_word(inside))
}
