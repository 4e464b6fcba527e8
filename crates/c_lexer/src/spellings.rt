//! The longest spelling in front of bytes, and what it is.

ghost use Rattle.std.specs.Prelude.{◌≡◌, ◌<◌, IsTrue, slice_index, length, unwrap_or};
ghost use Rattle.c_lexer.specs.CReading.Bytes.{is_letter};
ghost use Rattle.c_lexer.specs.CReading.Spellings.{begins_number, literal_len};
ghost use Rattle.c_lexer.specs.Ways.Cutting.{word_len, number_len, punctuator_len, word_or_literal, spelling_len};
ghost use Rattle.c_lexer.specs.Found.{GivesSpelling, BeginsWith};
ghost use Rattle.c_lexer.specs.declared.c_reading.mode.Mode.{Mode};

use crate::bytes::{Class, front_len, is_letter, is_quote};
use crate::c_reading::Mode;
use crate::constants::number_kind;
use crate::literals::{literal_kind, literal_len};
use crate::numbers::{begins_number, number_len};
use crate::punctuators::punctuator;
use crate::words::word_kind;
use c_tree::TokenKind;

/// A spelling in front: its length, and what it is, if it is a token.
#[derive(Clone, Copy)]
pub struct Spelled {
    pub len: usize,
    pub kind: Option<TokenKind>,
}

/// A literal.
#[tactic(auto, using(crate::proofs::CReading::ClassKinds::literal_kinds))]
fn literal(mode: Mode, bytes: &[u8]) -> Option<Spelled>
    ensures { GivesSpelling mode bytes.now (unwrap_or (literal_len bytes.now) 0) result }
{
    let Some(len) = literal_len(bytes) else {
        return None;
    };
    if len == 0 {
        return None;
    }
    let kind = Some(literal_kind(&bytes[..len]));
    Some(Spelled { len, kind })
}

/// A literal behind `L`, else a word.
#[tactic(auto, unfolding(crate::specs::Ways::Cutting::word_len), using(crate::proofs::CReading::ClassKinds::word_kinds))]
fn word_or_literal(mode: Mode, first: u8, bytes: &[u8]) -> Option<Spelled>
    requires begins { BeginsWith first bytes.now }
    requires letter { IsTrue (is_letter first) }
    ensures { GivesSpelling mode bytes.now (word_or_literal bytes.now) result }
{
    if let Some(spelled) = literal(mode, bytes) {
        return Some(spelled);
    }
    let len = front_len(Class::Word, &bytes[1..]) + 1;
    let kind = Some(word_kind(&bytes[..len]));
    Some(Spelled { len, kind })
}

/// A number.
#[tactic(auto, using(crate::proofs::CReading::ClassKinds::number_kinds))]
fn number(mode: Mode, bytes: &[u8]) -> Option<Spelled>
    requires { IsTrue (begins_number bytes.now) }
    ensures { GivesSpelling mode bytes.now (number_len bytes.now) result }
{
    let len = number_len(bytes);
    if len == 0 {
        return None;
    }
    let kind = number_kind(&bytes[..len]);
    Some(Spelled { len, kind })
}

/// A punctuator.
#[tactic(auto, using(crate::proofs::CReading::ClassKinds::punctuator_kinds))]
fn sign(mode: Mode, bytes: &[u8]) -> Option<Spelled>
    ensures { GivesSpelling mode bytes.now (punctuator_len mode bytes.now) result }
{
    let Some((len, found)) = punctuator(mode, bytes) else {
        return None;
    };
    let kind = Some(TokenKind::Punct(found));
    Some(Spelled { len, kind })
}

/// The longest spelling in front.
#[tactic(auto, unfolding(crate::specs::Ways::Cutting::spelling_len))]
pub fn spelling(mode: Mode, bytes: &[u8]) -> Option<Spelled>
    ensures { GivesSpelling mode bytes.now (spelling_len mode bytes.now) result }
{
    let [first, ..] = bytes else {
        return None;
    };
    if is_letter(*first) {
        return word_or_literal(mode, *first, bytes);
    }
    if begins_number(bytes) {
        return number(mode, bytes);
    }
    if is_quote(*first) {
        return literal(mode, bytes);
    }
    sign(mode, bytes)
}
