//! Tokens: what a spelling is, and where it stands.

use crate::keyword::Keyword;
use crate::place::Place;
use crate::punctuator::Punctuator;

/// How a floating constant ends (ISO 9899:1990, 6.1.3.1).
#[derive(Clone, Copy, PartialEq, Eq)]
pub enum FloatEnd {
    /// No suffix: `double`.
    Double,
    /// `f` or `F`: `float`.
    F,
    /// `l` or `L`: `long double`.
    L,
}

/// What a word means to GNU C. Each spelling that is dropped or renamed before parsing has a mark of its own; `Both` says
/// that its underscores stand on both sides.
#[derive(Clone, Copy, PartialEq, Eq)]
pub enum Mark {
    /// Every other word.
    Plain,
    /// `__func__`, `__FUNCTION__` or `__PRETTY_FUNCTION__`
    FunctionName,
    /// `__extension__`
    ExtensionBoth,
    /// `__attribute`
    Attribute,
    /// `__attribute__`
    AttributeBoth,
    /// `asm`, without underscores
    AsmPlain,
    /// `__asm`
    Asm,
    /// `__asm__`
    AsmBoth,
    /// `__inline`
    Inline,
    /// `__inline__`
    InlineBoth,
    /// `__restrict`
    Restrict,
    /// `__restrict__`
    RestrictBoth,
    /// `__const`
    Const,
    /// `__const__`
    ConstBoth,
    /// `__volatile`
    Volatile,
    /// `__volatile__`
    VolatileBoth,
    /// `__signed`
    Signed,
    /// `__signed__`
    SignedBoth,
}

/// What a token is.
#[derive(Clone, Copy, PartialEq, Eq)]
pub enum TokenKind {
    /// A word that is no keyword.
    Word(Mark),
    Keyword(Keyword),
    /// An integer constant.
    Int {
        value: u64,
        /// Whether it is written in decimal, else in octal or hexadecimal.
        decimal: bool,
        /// Whether it has the suffix `u` or `U`.
        unsigned: bool,
        /// The number of its suffixes `l` or `L`: 0, 1 or 2.
        longs: u8,
    },
    /// A floating constant.
    Float(FloatEnd),
    /// A character constant; `wide` is its prefix `L`.
    Char {
        wide: bool,
    },
    /// A string literal; `wide` is its prefix `L`.
    Str {
        wide: bool,
    },
    Punct(Punctuator),
}

/// A token of a source.
#[derive(Clone, Copy, PartialEq, Eq)]
pub struct Token {
    pub kind: TokenKind,
    /// The number of its spelling in the table of names.
    pub name: u32,
    /// The byte at which its spelling begins, from 0.
    pub start: u32,
    /// The number of bytes of its spelling.
    pub len: u32,
    /// The line by the markers, else the number of line feeds before it, plus 1.
    pub line: u32,
    /// The column in bytes in the line as it was handed in, from 1.
    pub col: u32,
    /// The number of the presumed file's name in the table of names.
    pub source: u32,
    pub place: Place,
}
