//! Where literals and comments end.

ghost use Rattle.std.specs.Prelude.{◌≡◌, ◌≤◌, length, IfSome, Some, ◌∷◌};
ghost use Rattle.c_lexer.specs.CReading.Spellings.{quoted, unprefixed_len, literal_len, literal_kind};
ghost use Rattle.c_lexer.specs.Ways.Cutting.{closing};

use crate::bytes::{begins, is_quote};
use c_tree::TokenKind;

/// The number of bytes up to and with the first such quote that no backslash escapes, if the line doesn't end before it.
#[tactic(auto, using(crate::proofs::CReading::Scans::quoted_steps))]
pub fn quoted(quote: u8, bytes: &[u8]) -> Option<usize>
    ensures found { result ≡ quoted quote bytes.now }
    ensures within { IfSome result (λ n. n ≤ length bytes.now) }
{
    let mut rest = bytes;
    let mut count = 0;
    'going: while let [front, behind @ ..] = rest {
        if *front == quote {
            return Some(count + 1);
        }
        if *front == b'\n' {
            return None;
        }
        if *front == b'\\' {
            let [escaped, further @ ..] = behind else {
                return None;
            };
            if *escaped == b'\n' {
                return None;
            }
            count += 2;
            rest = further;
        } else {
            count += 1;
            rest = behind;
        }
    }
    None
}

/// The number of bytes up to and with the first `*/`.
#[tactic(auto, using(crate::proofs::CReading::Scans::closing_steps))]
pub fn closing(bytes: &[u8]) -> Option<usize>
    ensures found { result ≡ closing bytes.now }
    ensures within { IfSome result (λ n. n ≤ length bytes.now) }
{
    let mut rest = bytes;
    let mut count = 0;
    'going: while let [front, behind @ ..] = rest {
        if *front == b'*' && begins(b'/', behind) {
            return Some(count + 2);
        }
        count += 1;
        rest = behind;
    }
    None
}

/// The length of a literal without prefix that begins here.
fn unprefixed_len(bytes: &[u8]) -> Option<usize>
    ensures found { result ≡ unprefixed_len bytes.now }
    ensures within { IfSome result (λ n. n ≤ length bytes.now) }
{
    let [front, behind @ ..] = bytes else {
        return None;
    };
    if !is_quote(*front) || (*front == b'\'' && begins(b'\'', behind)) {
        return None;
    }
    match quoted(*front, behind) {
        None => None,
        Some(count) => Some(count + 1),
    }
}

/// The length of a literal that begins here, perhaps behind `L`.
#[tactic(auto, unfolding(crate::specs::CReading::Spellings::literal_len))]
pub fn literal_len(bytes: &[u8]) -> Option<usize>
    ensures found { result ≡ literal_len bytes.now }
    ensures within { IfSome result (λ n. n ≤ length bytes.now) }
{
    match bytes {
        [b'L', behind @ ..] => match unprefixed_len(behind) {
            None => None,
            Some(count) => Some(count + 1),
        },
        _ => unprefixed_len(bytes),
    }
}

/// What a literal is, by its first bytes.
#[tactic(auto, unfolding(crate::specs::CReading::Spellings::literal_kind))]
pub fn literal_kind(text: &[u8]) -> TokenKind
    ensures { result ≡ literal_kind text.now }
{
    match text {
        [] => TokenKind::Char { wide: false },
        [b'L', behind @ ..] => {
            if begins(b'\'', behind) {
                TokenKind::Char { wide: true }
            } else {
                TokenKind::Str { wide: true }
            }
        }
        [b'\'', ..] => TokenKind::Char { wide: false },
        _ => TokenKind::Str { wide: false },
    }
}
