//! Which punctuator bytes are.

ghost use Rattle.std.specs.Prelude.{◌≡◌, [], ◌∷◌, length, is_some, IfSome};
ghost use Rattle.c_lexer.specs.CReading.Words.{find_text};
ghost use Rattle.c_lexer.specs.CReading.Punctuators.{singles, pairs, triples, extra_single, extra_triple, punctuator_of};
ghost use Rattle.c_lexer.specs.Found.{GivesPunctuator, GivesShort};

use crate::c_reading::Mode;
use c_tree::Punctuator;

/// The punctuator of this one byte in C.
#[tactic(auto, unfolding(crate::specs::CReading::Punctuators::singles))]
fn single_of_c(first: u8) -> Option<Punctuator>
    ensures { result ≡ find_text (first ∷ []) singles }
{
    match first {
        b'[' => Some(Punctuator::OpenBracket),
        b']' => Some(Punctuator::CloseBracket),
        b'(' => Some(Punctuator::OpenParen),
        b')' => Some(Punctuator::CloseParen),
        b'{' => Some(Punctuator::OpenBrace),
        b'}' => Some(Punctuator::CloseBrace),
        b'.' => Some(Punctuator::Dot),
        b'&' => Some(Punctuator::Ampersand),
        b'*' => Some(Punctuator::Star),
        b'+' => Some(Punctuator::Plus),
        b'-' => Some(Punctuator::Minus),
        b'~' => Some(Punctuator::Tilde),
        b'!' => Some(Punctuator::Exclamation),
        b'/' => Some(Punctuator::Slash),
        b'%' => Some(Punctuator::Percent),
        b'<' => Some(Punctuator::Less),
        b'>' => Some(Punctuator::Greater),
        b'^' => Some(Punctuator::Caret),
        b'|' => Some(Punctuator::Bar),
        b'?' => Some(Punctuator::Question),
        b':' => Some(Punctuator::Colon),
        b';' => Some(Punctuator::Semicolon),
        b'=' => Some(Punctuator::Assign),
        b',' => Some(Punctuator::Comma),
        _ => None,
    }
}

/// The punctuator of these two bytes.
#[tactic(auto, unfolding(crate::specs::CReading::Punctuators::pairs))]
fn pair(first: u8, second: u8) -> Option<Punctuator>
    ensures { result ≡ find_text (first ∷ second ∷ []) pairs }
{
    match (first, second) {
        (b'-', b'>') => Some(Punctuator::Arrow),
        (b'+', b'+') => Some(Punctuator::Increment),
        (b'-', b'-') => Some(Punctuator::Decrement),
        (b'<', b'<') => Some(Punctuator::ShiftLeft),
        (b'>', b'>') => Some(Punctuator::ShiftRight),
        (b'<', b'=') => Some(Punctuator::LessEqual),
        (b'>', b'=') => Some(Punctuator::GreaterEqual),
        (b'=', b'=') => Some(Punctuator::Equal),
        (b'!', b'=') => Some(Punctuator::NotEqual),
        (b'&', b'&') => Some(Punctuator::AndAnd),
        (b'|', b'|') => Some(Punctuator::OrOr),
        (b'*', b'=') => Some(Punctuator::StarAssign),
        (b'/', b'=') => Some(Punctuator::SlashAssign),
        (b'%', b'=') => Some(Punctuator::PercentAssign),
        (b'+', b'=') => Some(Punctuator::PlusAssign),
        (b'-', b'=') => Some(Punctuator::MinusAssign),
        (b'&', b'=') => Some(Punctuator::AmpersandAssign),
        (b'^', b'=') => Some(Punctuator::CaretAssign),
        (b'|', b'=') => Some(Punctuator::BarAssign),
        _ => None,
    }
}

/// The punctuator of these three bytes in C.
#[tactic(auto, unfolding(crate::specs::CReading::Punctuators::triples))]
fn triple_of_c(first: u8, second: u8, third: u8) -> Option<Punctuator>
    ensures { result ≡ find_text (first ∷ second ∷ third ∷ []) triples }
{
    match (first, second, third) {
        (b'.', b'.', b'.') => Some(Punctuator::Ellipsis),
        (b'<', b'<', b'=') => Some(Punctuator::ShiftLeftAssign),
        (b'>', b'>', b'=') => Some(Punctuator::ShiftRightAssign),
        _ => None,
    }
}

/// The punctuator of this one byte.
#[tactic(auto, unfolding(crate::specs::CReading::Punctuators::punctuator_of, crate::specs::CReading::Punctuators::punctuators, crate::specs::CReading::Punctuators::singles))]
fn single(mode: Mode, first: u8) -> Option<Punctuator>
    ensures { result ≡ punctuator_of mode (first ∷ []) }
{
    if first == b'$' {
        return match mode {
            Mode::C => None,
            Mode::Metal => Some(Punctuator::Dollar),
        };
    }
    single_of_c(first)
}

/// The punctuator of these three bytes.
#[tactic(auto, unfolding(crate::specs::CReading::Punctuators::punctuator_of, crate::specs::CReading::Punctuators::punctuators, crate::specs::CReading::Punctuators::triples))]
fn triple(mode: Mode, first: u8, second: u8, third: u8) -> Option<Punctuator>
    ensures { result ≡ punctuator_of mode (first ∷ second ∷ third ∷ []) }
{
    if first == b'=' && second == b'=' && third == b'>' {
        return match mode {
            Mode::C => None,
            Mode::Metal => Some(Punctuator::LongArrow),
        };
    }
    triple_of_c(first, second, third)
}

/// The punctuator of these two bytes, or of the first one alone, with its length.
#[tactic(auto, unfolding(crate::specs::CReading::Punctuators::punctuator_of, crate::specs::CReading::Punctuators::punctuators))]
fn pair_or_single(mode: Mode, first: u8, second: u8) -> Option<(usize, Punctuator)>
    ensures { GivesShort mode first second result }
{
    if let Some(punctuator) = pair(first, second) {
        return Some((2, punctuator));
    }
    match single(mode, first) {
        None => None,
        Some(punctuator) => Some((1, punctuator)),
    }
}

/// The longest punctuator in front, with its length.
#[tactic(auto, unfolding(crate::specs::Ways::Cutting::punctuator_len))]
pub fn punctuator(mode: Mode, bytes: &[u8]) -> Option<(usize, Punctuator)>
    ensures { GivesPunctuator mode bytes.now result }
{
    match bytes {
        [] => None,
        [first] => match single(mode, *first) {
            None => None,
            Some(punctuator) => Some((1, punctuator)),
        },
        [first, second] => pair_or_single(mode, *first, *second),
        [first, second, third, ..] => match triple(mode, *first, *second, *third) {
            None => pair_or_single(mode, *first, *second),
            Some(punctuator) => Some((3, punctuator)),
        },
    }
}
