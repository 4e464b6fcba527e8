//! Kinds of tokens in words.

use crate::signs::{keyword_text, sign_text};
use c_tree::{FloatEnd, Mark, TokenKind};
use std::alloc::{AllocError, Global};

/// What a word means to GNU C.
fn mark_text(mark: Mark) -> &'static str {
    match mark {
        Mark::Plain => "word",
        Mark::FunctionName => "FunctionName",
        Mark::ExtensionBoth => "ExtensionBoth",
        Mark::Attribute => "Attribute",
        Mark::AttributeBoth => "AttributeBoth",
        Mark::AsmPlain => "AsmPlain",
        Mark::Asm => "Asm",
        Mark::AsmBoth => "AsmBoth",
        Mark::Inline => "Inline",
        Mark::InlineBoth => "InlineBoth",
        Mark::Restrict => "Restrict",
        Mark::RestrictBoth => "RestrictBoth",
        Mark::Const => "Const",
        Mark::ConstBoth => "ConstBoth",
        Mark::Volatile => "Volatile",
        Mark::VolatileBoth => "VolatileBoth",
        Mark::Signed => "Signed",
        Mark::SignedBoth => "SignedBoth",
    }
}

/// A floating constant.
fn float_text(end: FloatEnd) -> &'static str {
    match end {
        FloatEnd::Double => "floating()",
        FloatEnd::F => "floating(f)",
        FloatEnd::L => "floating(l)",
    }
}

/// A literal, which may be wide.
fn literal_text(wide: bool, plain: &'static str, other: &'static str) -> &'static str {
    if wide { other } else { plain }
}

/// So many suffixes `l`.
fn longs_text(longs: u8) -> &'static str {
    match longs {
        0 => "",
        1 => "l",
        2 => "ll",
        _ => "?",
    }
}

/// Appends an integer constant: whether it is written in decimal, its value, and its suffixes.
fn push_integer(
    alloc: Global,
    into: &mut String,
    value: u64,
    decimal: bool,
    suffix: (bool, u8),
) -> Result<(), AllocError> {
    let base = if decimal { "decimal" } else { "based" };
    let sign = if suffix.0 { "u" } else { "" };
    let longs = longs_text(suffix.1);
    let text = format!(in alloc; "{base}({value}{sign}{longs})")?;
    into.push_str(text.as_str())
}

/// Appends what a token is: a keyword and a punctuator by themselves.
pub fn push_kind(alloc: Global, into: &mut String, kind: TokenKind) -> Result<(), AllocError> {
    match kind {
        TokenKind::Word(mark) => into.push_str(mark_text(mark)),
        TokenKind::Keyword(keyword) => into.push_str(keyword_text(keyword)),
        TokenKind::Int {
            value,
            decimal,
            unsigned,
            longs,
        } => push_integer(alloc, into, value, decimal, (unsigned, longs)),
        TokenKind::Float(end) => into.push_str(float_text(end)),
        TokenKind::Char { wide } => {
            into.push_str(literal_text(wide, "character", "wide-character"))
        }
        TokenKind::Str { wide } => into.push_str(literal_text(wide, "string", "wide-string")),
        TokenKind::Punct(sign) => into.push_str(sign_text(sign)),
    }
}
