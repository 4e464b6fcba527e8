//! What a number says: an integer or a floating constant.

ghost use Rattle.std.specs.Prelude.{◌≡◌, ◌-◌, ◌<◌, ◌≤◌, ◌^◌, length, nat_le, if◌then◌else◌, IfSome};
ghost use Rattle.c_lexer.specs.CReading.Constants.{digit_value, value_up_to, suffix_of, integer_in, hexadecimal, integer_of, after_digits, float_end, after_sign, exponent_digits, exponent, after_point, after_whole, float_of, number_kind, is_u, is_l};
ghost use Rattle.c_lexer.specs.Tests.{test_of};

use crate::bytes::{Class, front_len, is_digit, is_hex};
use crate::numbers::is_e;
use c_tree::{FloatEnd, TokenKind};

/// The value of a digit of any base.
#[tactic(auto, unfolding(crate::specs::CReading::Constants::digit_value))]
fn digit_value(digit: u8) -> u64
    ensures { result ≡ digit_value digit }
{
    let value = if is_digit(digit) {
        digit.saturating_sub(b'0')
    } else if b'a' <= digit {
        digit.saturating_sub(b'a' - 10)
    } else {
        digit.saturating_sub(b'A' - 10)
    };
    u64::from(value)
}

/// The value of digits, if it is at most this.
#[tactic(auto, using(crate::proofs::CReading::Scans::value_past))]
pub fn value_up_to(most: u64, base: u64, digits: &[u8]) -> Option<u64>
    requires { 0 < base }
    ensures value { result ≡ value_up_to most base digits.now }
    ensures most { IfSome result (λ value. value ≤ most) }
{
    let mut value = 0u64;
    let mut rest = digits;
    'going: while let [digit, behind @ ..] = rest {
        let Some(scaled) = value.checked_mul(base) else {
            return None;
        };
        let Some(next) = scaled.checked_add(digit_value(*digit)) else {
            return None;
        };
        value = next;
        rest = behind;
    }
    if value <= most { Some(value) } else { None }
}

/// `u` or `U`.
fn is_u(byte: u8) -> bool
    ensures { result ≡ is_u byte }
{
    byte == b'u' || byte == b'U'
}

/// `l` or `L`.
fn is_l(byte: u8) -> bool
    ensures { result ≡ is_l byte }
{
    byte == b'l' || byte == b'L'
}

/// Whether a suffix has a `u`, and how many `l` it has, if it is a suffix.
#[tactic(auto, unfolding(crate::specs::CReading::Constants::suffix_of))]
fn suffix_of(text: &[u8]) -> Option<(bool, u8)>
    ensures { result ≡ suffix_of text.now }
{
    match text {
        [] => Some((false, 0)),
        [a] => {
            if is_u(*a) {
                Some((true, 0))
            } else if is_l(*a) {
                Some((false, 1))
            } else {
                None
            }
        }
        [a, b] => {
            if (is_u(*a) && is_l(*b)) || (is_l(*a) && is_u(*b)) {
                Some((true, 1))
            } else if is_l(*a) && *b == *a {
                Some((false, 2))
            } else {
                None
            }
        }
        [a, b, c] => {
            if (is_u(*a) && is_l(*b) && *c == *b) || (is_l(*a) && *b == *a && is_u(*c)) {
                Some((true, 2))
            } else {
                None
            }
        }
        _ => None,
    }
}

/// An integer of digits of this class, and its suffix.
#[tactic(auto, unfolding(crate::specs::CReading::Constants::integer_in))]
fn integer_in(class: Class, base: u64, decimal: bool, text: &[u8]) -> Option<TokenKind>
    requires { 0 < base }
    ensures { result ≡ integer_in (test_of class) base decimal text.now }
{
    let count = front_len(class, text);
    let Some(value) = value_up_to(u64::MAX, base, &text[..count]) else {
        return None;
    };
    let Some((unsigned, longs)) = suffix_of(&text[count..]) else {
        return None;
    };
    Some(TokenKind::Int {
        value,
        decimal,
        unsigned,
        longs,
    })
}

/// A hexadecimal integer, behind its `0x`.
#[tactic(auto, unfolding(crate::specs::CReading::Constants::hexadecimal))]
fn hexadecimal(text: &[u8]) -> Option<TokenKind>
    ensures { result ≡ hexadecimal text.now }
{
    match text {
        [] => None,
        [first, ..] => {
            if is_hex(*first) {
                integer_in(Class::Hexadecimal, 16, false, text)
            } else {
                None
            }
        }
    }
}

/// Decimal without a leading 0, octal with one, or hexadecimal.
#[tactic(auto, unfolding(crate::specs::CReading::Constants::integer_of))]
fn integer_of(text: &[u8]) -> Option<TokenKind>
    ensures { result ≡ integer_of text.now }
{
    match text {
        [] => None,
        [b'0', b'x' | b'X', rest @ ..] => hexadecimal(rest),
        [b'0', ..] => integer_in(Class::Octal, 8, false, text),
        _ => integer_in(Class::Digit, 10, true, text),
    }
}

/// What follows the digits in front.
#[tactic(auto, unfolding(crate::specs::CReading::Constants::after_digits))]
fn after_digits(text: &[u8]) -> &[u8]
    ensures { result.now ≡ after_digits text.now }
{
    &text[front_len(Class::Digit, text)..]
}

/// The end of a floating constant.
#[tactic(auto, unfolding(crate::specs::CReading::Constants::float_end))]
fn float_end(text: &[u8]) -> Option<FloatEnd>
    ensures { result ≡ float_end text.now }
{
    match text {
        [] => Some(FloatEnd::Double),
        [a] => {
            if *a == b'f' || *a == b'F' {
                Some(FloatEnd::F)
            } else if is_l(*a) {
                Some(FloatEnd::L)
            } else {
                None
            }
        }
        _ => None,
    }
}

/// What follows a sign in front, if there is one.
fn after_sign(text: &[u8]) -> &[u8]
    ensures { result.now ≡ after_sign text.now }
{
    match text {
        [] => text,
        [a, rest @ ..] => { if *a == b'+' || *a == b'-' { rest } else { text } }
    }
}

/// The digits of an exponent, behind its sign, and the end.
#[tactic(auto, unfolding(crate::specs::CReading::Constants::exponent_digits))]
fn exponent_digits(text: &[u8]) -> Option<FloatEnd>
    ensures { result ≡ exponent_digits text.now }
{
    match text {
        [] => None,
        [digit, ..] => {
            if is_digit(*digit) {
                float_end(after_digits(text))
            } else {
                None
            }
        }
    }
}

/// An exponent and the end, behind the digits.
#[tactic(auto, unfolding(crate::specs::CReading::Constants::exponent))]
fn exponent(text: &[u8]) -> Option<FloatEnd>
    ensures { result ≡ exponent text.now }
{
    match text {
        [] => None,
        [a, rest @ ..] => {
            if is_e(*a) {
                exponent_digits(after_sign(rest))
            } else {
                None
            }
        }
    }
}

/// What stands behind the digits that follow the point.
#[tactic(auto, unfolding(crate::specs::CReading::Constants::after_point))]
fn after_point(text: &[u8]) -> Option<FloatEnd>
    ensures { result ≡ after_point text.now }
{
    match text {
        [] => float_end(text),
        [a, rest @ ..] => {
            if is_e(*a) {
                exponent_digits(after_sign(rest))
            } else {
                float_end(text)
            }
        }
    }
}

/// What stands behind the digits in front.
#[tactic(auto, unfolding(crate::specs::CReading::Constants::after_whole))]
fn after_whole(text: &[u8]) -> Option<FloatEnd>
    ensures { result ≡ after_whole text.now }
{
    match text {
        [] => None,
        [a, rest @ ..] => {
            if *a == b'.' {
                after_point(after_digits(rest))
            } else {
                exponent(text)
            }
        }
    }
}

/// What a number says, if it says anything.
#[tactic(auto, unfolding(crate::specs::CReading::Constants::number_kind, crate::specs::CReading::Constants::float_of))]
pub fn number_kind(text: &[u8]) -> Option<TokenKind>
    ensures { result ≡ number_kind text.now }
{
    if let Some(kind) = integer_of(text) {
        return Some(kind);
    }
    match after_whole(after_digits(text)) {
        None => None,
        Some(end) => Some(TokenKind::Float(end)),
    }
}
