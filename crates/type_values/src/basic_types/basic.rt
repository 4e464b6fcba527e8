//! The basic types (ISO 9899:1990, 6.5.2).

ghost use Rattle.std.specs.Prelude.{◌≡◌};
ghost use Rattle.c_grammar.specs.Specifiers.{is_among, is_basic};
ghost use Rattle.type_values.specs.BasicTypes.Basics.{basic_of, words_of, lines_of};
ghost use Rattle.type_rules.specs.Specified.{basic_in, basic_type};

use crate::arithmetic::Arithmetic;
use crate::basic_types::words::same_words;
use c_tree::Keyword;

/// A type that is written with keywords alone.
#[derive(Clone, Copy)]
pub enum Basic {
    Void,
    Arith(Arithmetic),
    VaList,
}

/// The lists of words that name basic types, in the order of the standard. The words of a list may stand in any order.
const BASIC_TYPES: &[(&[Keyword], Basic)] = &[
    (&[Keyword::Void], Basic::Void),
    (&[Keyword::Char], Basic::Arith(Arithmetic::Char)),
    (
        &[Keyword::Signed, Keyword::Char],
        Basic::Arith(Arithmetic::SignedChar),
    ),
    (
        &[Keyword::Unsigned, Keyword::Char],
        Basic::Arith(Arithmetic::UnsignedChar),
    ),
    (&[Keyword::Short], Basic::Arith(Arithmetic::Short)),
    (
        &[Keyword::Signed, Keyword::Short],
        Basic::Arith(Arithmetic::Short),
    ),
    (
        &[Keyword::Short, Keyword::Int],
        Basic::Arith(Arithmetic::Short),
    ),
    (
        &[Keyword::Signed, Keyword::Short, Keyword::Int],
        Basic::Arith(Arithmetic::Short),
    ),
    (
        &[Keyword::Unsigned, Keyword::Short],
        Basic::Arith(Arithmetic::UnsignedShort),
    ),
    (
        &[Keyword::Unsigned, Keyword::Short, Keyword::Int],
        Basic::Arith(Arithmetic::UnsignedShort),
    ),
    (&[Keyword::Int], Basic::Arith(Arithmetic::Int)),
    (&[Keyword::Signed], Basic::Arith(Arithmetic::Int)),
    (
        &[Keyword::Signed, Keyword::Int],
        Basic::Arith(Arithmetic::Int),
    ),
    (&[Keyword::Unsigned], Basic::Arith(Arithmetic::UnsignedInt)),
    (
        &[Keyword::Unsigned, Keyword::Int],
        Basic::Arith(Arithmetic::UnsignedInt),
    ),
    (&[Keyword::Long], Basic::Arith(Arithmetic::Long)),
    (
        &[Keyword::Signed, Keyword::Long],
        Basic::Arith(Arithmetic::Long),
    ),
    (
        &[Keyword::Long, Keyword::Int],
        Basic::Arith(Arithmetic::Long),
    ),
    (
        &[Keyword::Signed, Keyword::Long, Keyword::Int],
        Basic::Arith(Arithmetic::Long),
    ),
    (
        &[Keyword::Unsigned, Keyword::Long],
        Basic::Arith(Arithmetic::UnsignedLong),
    ),
    (
        &[Keyword::Unsigned, Keyword::Long, Keyword::Int],
        Basic::Arith(Arithmetic::UnsignedLong),
    ),
    (
        &[Keyword::Long, Keyword::Long],
        Basic::Arith(Arithmetic::LongLong),
    ),
    (
        &[Keyword::Signed, Keyword::Long, Keyword::Long],
        Basic::Arith(Arithmetic::LongLong),
    ),
    (
        &[Keyword::Long, Keyword::Long, Keyword::Int],
        Basic::Arith(Arithmetic::LongLong),
    ),
    (
        &[Keyword::Signed, Keyword::Long, Keyword::Long, Keyword::Int],
        Basic::Arith(Arithmetic::LongLong),
    ),
    (
        &[Keyword::Unsigned, Keyword::Long, Keyword::Long],
        Basic::Arith(Arithmetic::UnsignedLongLong),
    ),
    (
        &[
            Keyword::Unsigned,
            Keyword::Long,
            Keyword::Long,
            Keyword::Int,
        ],
        Basic::Arith(Arithmetic::UnsignedLongLong),
    ),
    (&[Keyword::Float], Basic::Arith(Arithmetic::Float)),
    (&[Keyword::Double], Basic::Arith(Arithmetic::Double)),
    (
        &[Keyword::Long, Keyword::Double],
        Basic::Arith(Arithmetic::LongDouble),
    ),
    (&[Keyword::Bool], Basic::Arith(Arithmetic::Boolean)),
    (&[Keyword::Int128], Basic::Arith(Arithmetic::Int128)),
    (
        &[Keyword::Signed, Keyword::Int128],
        Basic::Arith(Arithmetic::Int128),
    ),
    (
        &[Keyword::Unsigned, Keyword::Int128],
        Basic::Arith(Arithmetic::UnsignedInt128),
    ),
    (&[Keyword::Float32], Basic::Arith(Arithmetic::Float32)),
    (&[Keyword::Float32x], Basic::Arith(Arithmetic::Float32x)),
    (&[Keyword::Float64], Basic::Arith(Arithmetic::Float64)),
    (&[Keyword::Float64x], Basic::Arith(Arithmetic::Float64x)),
    (&[Keyword::Float128], Basic::Arith(Arithmetic::Float128)),
    (&[Keyword::GnuFloat128], Basic::Arith(Arithmetic::Float128)),
    (&[Keyword::BuiltinVaList], Basic::VaList),
];

/// Whether these words are those of a line.
fn is_among(words: &[Keyword], lines: &[(&[Keyword], Basic)]) -> bool
    ensures { result ≡ is_among words.now (words_of lines.now) }
{
    for line in lines {
        if same_words(words, line.0) {
            return true;
        }
    }
    false
}

/// Whether these words are those of a basic type.
pub fn is_basic(words: &[Keyword]) -> bool
    ensures { result ≡ is_basic words.now }
{
    is_among(words, BASIC_TYPES)
}

/// The type of the first line with these words, in any order.
fn basic_in(words: &[Keyword], lines: &[(&[Keyword], Basic)]) -> Basic
    ensures { basic_of result ≡ basic_in words.now (lines_of lines.now) }
{
    for line in lines {
        if same_words(words, line.0) {
            return line.1;
        }
    }
    Basic::Void
}

/// The basic type that is written with these words, in any order. It is `Void` where they are no basic type.
pub fn basic_type(words: &[Keyword]) -> Basic
    ensures { basic_of result ≡ basic_type words.now }
{
    basic_in(words, BASIC_TYPES)
}
