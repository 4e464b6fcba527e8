//! Classes of bytes, and how many bytes in front are of a class.

ghost use Rattle.std.specs.Prelude.{◌≡◌, nat_le, ◌&&◌, length, ◌≤◌};
ghost use Rattle.std.specs.List.{prefix_len};
ghost use Rattle.c_lexer.specs.CReading.Bytes.{within, is_digit, is_letter, is_word_byte, is_gap, is_blank, is_within_line, is_quote, begins};
ghost use Rattle.c_lexer.specs.CReading.Constants.{is_octal, is_hex};
ghost use Rattle.c_lexer.specs.Tests.{test_of};

/// Bytes that are taken together.
#[derive(Clone, Copy, PartialEq, Eq)]
pub enum Class {
    /// Letters, digits and `_`.
    Word,
    Digit,
    Octal,
    Hexadecimal,
    /// Space and tab.
    Gap,
    /// All but the line feed.
    WithinLine,
}

pub fn within(low: u8, high: u8, byte: u8) -> bool
    ensures { result ≡ within low high byte }
{
    low <= byte && byte <= high
}

#[tactic(auto, unfolding(crate::specs::CReading::Bytes::is_digit))]
pub fn is_digit(byte: u8) -> bool
    ensures { result ≡ is_digit byte }
{
    within(b'0', b'9', byte)
}

/// A letter or `_`.
#[tactic(auto, unfolding(crate::specs::CReading::Bytes::is_letter))]
pub fn is_letter(byte: u8) -> bool
    ensures { result ≡ is_letter byte }
{
    within(b'a', b'z', byte) || within(b'A', b'Z', byte) || byte == b'_'
}

#[tactic(auto, unfolding(crate::specs::CReading::Bytes::is_word_byte))]
pub fn is_word_byte(byte: u8) -> bool
    ensures { result ≡ is_word_byte byte }
{
    is_letter(byte) || is_digit(byte)
}

/// Space or tab.
#[tactic(auto, unfolding(crate::specs::CReading::Bytes::is_gap))]
pub fn is_gap(byte: u8) -> bool
    ensures { result ≡ is_gap byte }
{
    byte == b' ' || byte == b'\t'
}

/// Space, tab, vertical tab, form feed, carriage return or line feed.
#[tactic(auto, unfolding(crate::specs::CReading::Bytes::is_blank))]
pub fn is_blank(byte: u8) -> bool
    ensures { result ≡ is_blank byte }
{
    byte == b' ' || within(b'\t', b'\r', byte)
}

#[tactic(auto, unfolding(crate::specs::CReading::Bytes::is_within_line))]
fn is_within_line(byte: u8) -> bool
    ensures { result ≡ is_within_line byte }
{
    byte != b'\n'
}

#[tactic(auto, unfolding(crate::specs::CReading::Bytes::is_quote))]
pub fn is_quote(byte: u8) -> bool
    ensures { result ≡ is_quote byte }
{
    byte == b'\'' || byte == b'"'
}

#[tactic(auto, unfolding(crate::specs::CReading::Constants::is_octal))]
fn is_octal(byte: u8) -> bool
    ensures { result ≡ is_octal byte }
{
    within(b'0', b'7', byte)
}

#[tactic(auto, unfolding(crate::specs::CReading::Constants::is_hex))]
pub fn is_hex(byte: u8) -> bool
    ensures { result ≡ is_hex byte }
{
    is_digit(byte) || within(b'a', b'f', byte) || within(b'A', b'F', byte)
}

/// Whether the byte is of the class.
fn is_of(class: Class, byte: u8) -> bool
    ensures { result ≡ test_of class byte }
{
    match class {
        Class::Word => is_word_byte(byte),
        Class::Digit => is_digit(byte),
        Class::Octal => is_octal(byte),
        Class::Hexadecimal => is_hex(byte),
        Class::Gap => is_gap(byte),
        Class::WithinLine => is_within_line(byte),
    }
}

/// How many bytes in front are of the class.
pub fn front_len(class: Class, bytes: &[u8]) -> usize
    ensures count { result ≡ prefix_len (test_of class) bytes.now }
    ensures within { result ≤ length bytes.now }
{
    let mut rest = bytes;
    let mut count = 0;
    'going: while let [front, behind @ ..] = rest {
        if !is_of(class, *front) {
            break;
        }
        count += 1;
        rest = behind;
    }
    count
}

/// Whether the first byte is this one.
pub fn begins(byte: u8, bytes: &[u8]) -> bool
    ensures { result ≡ begins byte bytes.now }
{
    match bytes {
        [] => false,
        [front, ..] => *front == byte,
    }
}
