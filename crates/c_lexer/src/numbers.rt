//! How far a number goes.

ghost use Rattle.std.specs.Prelude.{◌≡◌, ◌≤◌, length};
ghost use Rattle.c_lexer.specs.CReading.Runs.{run_len};
ghost use Rattle.c_lexer.specs.CReading.Constants.{is_e};
ghost use Rattle.c_lexer.specs.CReading.Spellings.{goes_on, begins_number};
ghost use Rattle.c_lexer.specs.Ways.Cutting.{number_len};

use crate::bytes::{is_digit, is_word_byte};

/// Whether a number begins here: a digit, or a point and a digit.
pub fn begins_number(bytes: &[u8]) -> bool
    ensures { result ≡ begins_number bytes.now }
{
    match bytes {
        [] => false,
        [first] => is_digit(*first),
        [first, second, ..] => is_digit(*first) || (*first == b'.' && is_digit(*second)),
    }
}

/// The letter of an exponent.
pub fn is_e(byte: u8) -> bool
    ensures { result ≡ is_e byte }
{
    byte == b'e' || byte == b'E'
}

/// Whether a number goes on with this byte behind the previous one.
#[tactic(auto, unfolding(crate::specs::CReading::Spellings::goes_on))]
fn goes_on(previous: u8, byte: u8) -> bool
    ensures { result ≡ goes_on previous byte }
{
    is_word_byte(byte) || byte == b'.' || (is_e(previous) && (byte == b'+' || byte == b'-'))
}

/// How many bytes behind the first one belong to its number.
fn run_len(first: u8, bytes: &[u8]) -> usize
    ensures count { result ≡ run_len goes_on first bytes.now }
    ensures within { result ≤ length bytes.now }
{
    let mut previous = first;
    let mut rest = bytes;
    let mut count = 0;
    'going: while let [front, behind @ ..] = rest {
        if !goes_on(previous, *front) {
            break;
        }
        previous = *front;
        count += 1;
        rest = behind;
    }
    count
}

/// The length of the number that begins here, or 0.
#[tactic(auto, unfolding(crate::specs::Ways::Cutting::number_len))]
pub fn number_len(bytes: &[u8]) -> usize
    ensures count { result ≡ number_len bytes.now }
    ensures within { result ≤ length bytes.now }
{
    if !begins_number(bytes) {
        return 0;
    }
    match bytes {
        [] => 0,
        [first, behind @ ..] => run_len(*first, behind) + 1,
    }
}
