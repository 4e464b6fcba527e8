//! What a word is, by its length and its bytes: a keyword, a word of GNU C with a mark, or a plain name.

ghost use Rattle.std.specs.Prelude.{◌≡◌, unwrap_or, length, bytes_eq};
ghost use Rattle.c_lexer.specs.CReading.Words.{find_text, word_kind, special_words};
ghost use Rattle.c_lexer.specs.Ways.WordsByLength.{of_length, words_of};

use c_tree::{Keyword, Mark, TokenKind};

/// Answers with what stands beside the first word that is the text.
macro_rules! find {
    ($text:expr; $($word:literal => $kind:expr,)*) => {
        $(if is_word($text, $word) {
            return Some($kind);
        })*
    };
}

/// Whether the text is this word.
fn is_word(text: &[u8], word: &[u8]) -> bool
    ensures { result ≡ bytes_eq text.now word.now }
{
    text == word
}

#[tactic(auto, unfolding(crate::specs::CReading::Words::special_words))]
fn of_2(text: &[u8]) -> Option<TokenKind>
    ensures { result ≡ find_text text.now (of_length 2 special_words) }
{
    find! { text;
        b"do" => TokenKind::Keyword(Keyword::Do),
        b"if" => TokenKind::Keyword(Keyword::If),
    }
    None
}

#[tactic(auto, unfolding(crate::specs::CReading::Words::special_words))]
fn of_3(text: &[u8]) -> Option<TokenKind>
    ensures { result ≡ find_text text.now (of_length 3 special_words) }
{
    find! { text;
        b"for" => TokenKind::Keyword(Keyword::For),
        b"int" => TokenKind::Keyword(Keyword::Int),
        b"asm" => TokenKind::Word(Mark::AsmPlain),
    }
    None
}

#[tactic(auto, unfolding(crate::specs::CReading::Words::special_words))]
fn of_4(text: &[u8]) -> Option<TokenKind>
    ensures { result ≡ find_text text.now (of_length 4 special_words) }
{
    find! { text;
        b"auto" => TokenKind::Keyword(Keyword::Auto),
        b"case" => TokenKind::Keyword(Keyword::Case),
        b"char" => TokenKind::Keyword(Keyword::Char),
        b"else" => TokenKind::Keyword(Keyword::Else),
        b"enum" => TokenKind::Keyword(Keyword::Enum),
        b"goto" => TokenKind::Keyword(Keyword::Goto),
        b"long" => TokenKind::Keyword(Keyword::Long),
        b"void" => TokenKind::Keyword(Keyword::Void),
    }
    None
}

#[tactic(auto, unfolding(crate::specs::CReading::Words::special_words))]
fn of_5(text: &[u8]) -> Option<TokenKind>
    ensures { result ≡ find_text text.now (of_length 5 special_words) }
{
    find! { text;
        b"break" => TokenKind::Keyword(Keyword::Break),
        b"const" => TokenKind::Keyword(Keyword::Const),
        b"float" => TokenKind::Keyword(Keyword::Float),
        b"short" => TokenKind::Keyword(Keyword::Short),
        b"union" => TokenKind::Keyword(Keyword::Union),
        b"while" => TokenKind::Keyword(Keyword::While),
        b"_Bool" => TokenKind::Keyword(Keyword::Bool),
        b"__asm" => TokenKind::Word(Mark::Asm),
    }
    None
}

#[tactic(auto, unfolding(crate::specs::CReading::Words::special_words))]
fn of_6(text: &[u8]) -> Option<TokenKind>
    ensures { result ≡ find_text text.now (of_length 6 special_words) }
{
    find! { text;
        b"double" => TokenKind::Keyword(Keyword::Double),
        b"extern" => TokenKind::Keyword(Keyword::Extern),
        b"return" => TokenKind::Keyword(Keyword::Return),
        b"signed" => TokenKind::Keyword(Keyword::Signed),
        b"sizeof" => TokenKind::Keyword(Keyword::Sizeof),
        b"static" => TokenKind::Keyword(Keyword::Static),
        b"struct" => TokenKind::Keyword(Keyword::Struct),
        b"switch" => TokenKind::Keyword(Keyword::Switch),
        b"inline" => TokenKind::Keyword(Keyword::Inline),
    }
    None
}

#[tactic(auto, unfolding(crate::specs::CReading::Words::special_words))]
fn of_7(text: &[u8]) -> Option<TokenKind>
    ensures { result ≡ find_text text.now (of_length 7 special_words) }
{
    find! { text;
        b"default" => TokenKind::Keyword(Keyword::Default),
        b"typedef" => TokenKind::Keyword(Keyword::Typedef),
        b"__asm__" => TokenKind::Word(Mark::AsmBoth),
        b"__const" => TokenKind::Word(Mark::Const),
    }
    None
}

#[tactic(auto, unfolding(crate::specs::CReading::Words::special_words))]
fn of_8(text: &[u8]) -> Option<TokenKind>
    ensures { result ≡ find_text text.now (of_length 8 special_words) }
{
    find! { text;
        b"continue" => TokenKind::Keyword(Keyword::Continue),
        b"register" => TokenKind::Keyword(Keyword::Register),
        b"unsigned" => TokenKind::Keyword(Keyword::Unsigned),
        b"volatile" => TokenKind::Keyword(Keyword::Volatile),
        b"restrict" => TokenKind::Keyword(Keyword::Restrict),
        b"__int128" => TokenKind::Keyword(Keyword::Int128),
        b"_Float32" => TokenKind::Keyword(Keyword::Float32),
        b"_Float64" => TokenKind::Keyword(Keyword::Float64),
        b"__func__" => TokenKind::Word(Mark::FunctionName),
        b"__inline" => TokenKind::Word(Mark::Inline),
        b"__signed" => TokenKind::Word(Mark::Signed),
    }
    None
}

#[tactic(auto, unfolding(crate::specs::CReading::Words::special_words))]
fn of_9(text: &[u8]) -> Option<TokenKind>
    ensures { result ≡ find_text text.now (of_length 9 special_words) }
{
    find! { text;
        b"_Float32x" => TokenKind::Keyword(Keyword::Float32x),
        b"_Float64x" => TokenKind::Keyword(Keyword::Float64x),
        b"_Float128" => TokenKind::Keyword(Keyword::Float128),
        b"__const__" => TokenKind::Word(Mark::ConstBoth),
    }
    None
}

#[tactic(auto, unfolding(crate::specs::CReading::Words::special_words))]
fn of_10(text: &[u8]) -> Option<TokenKind>
    ensures { result ≡ find_text text.now (of_length 10 special_words) }
{
    find! { text;
        b"__float128" => TokenKind::Keyword(Keyword::GnuFloat128),
        b"__inline__" => TokenKind::Word(Mark::InlineBoth),
        b"__restrict" => TokenKind::Word(Mark::Restrict),
        b"__volatile" => TokenKind::Word(Mark::Volatile),
        b"__signed__" => TokenKind::Word(Mark::SignedBoth),
    }
    None
}

#[tactic(auto, unfolding(crate::specs::CReading::Words::special_words))]
fn of_11(text: &[u8]) -> Option<TokenKind>
    ensures { result ≡ find_text text.now (of_length 11 special_words) }
{
    find! { text;
        b"__attribute" => TokenKind::Word(Mark::Attribute),
    }
    None
}

#[tactic(auto, unfolding(crate::specs::CReading::Words::special_words))]
fn of_12(text: &[u8]) -> Option<TokenKind>
    ensures { result ≡ find_text text.now (of_length 12 special_words) }
{
    find! { text;
        b"__FUNCTION__" => TokenKind::Word(Mark::FunctionName),
        b"__restrict__" => TokenKind::Word(Mark::RestrictBoth),
        b"__volatile__" => TokenKind::Word(Mark::VolatileBoth),
    }
    None
}

#[tactic(auto, unfolding(crate::specs::CReading::Words::special_words))]
fn of_13(text: &[u8]) -> Option<TokenKind>
    ensures { result ≡ find_text text.now (of_length 13 special_words) }
{
    find! { text;
        b"__extension__" => TokenKind::Word(Mark::ExtensionBoth),
        b"__attribute__" => TokenKind::Word(Mark::AttributeBoth),
    }
    None
}

#[tactic(auto, unfolding(crate::specs::CReading::Words::special_words))]
fn of_16(text: &[u8]) -> Option<TokenKind>
    ensures { result ≡ find_text text.now (of_length 16 special_words) }
{
    find! { text;
        b"__builtin_va_arg" => TokenKind::Keyword(Keyword::BuiltinVaArg),
    }
    None
}

#[tactic(auto, unfolding(crate::specs::CReading::Words::special_words))]
fn of_17(text: &[u8]) -> Option<TokenKind>
    ensures { result ≡ find_text text.now (of_length 17 special_words) }
{
    find! { text;
        b"__builtin_va_list" => TokenKind::Keyword(Keyword::BuiltinVaList),
    }
    None
}

#[tactic(auto, unfolding(crate::specs::CReading::Words::special_words))]
fn of_18(text: &[u8]) -> Option<TokenKind>
    ensures { result ≡ find_text text.now (of_length 18 special_words) }
{
    find! { text;
        b"__builtin_offsetof" => TokenKind::Keyword(Keyword::BuiltinOffsetof),
    }
    None
}

#[tactic(auto, unfolding(crate::specs::CReading::Words::special_words))]
fn of_19(text: &[u8]) -> Option<TokenKind>
    ensures { result ≡ find_text text.now (of_length 19 special_words) }
{
    find! { text;
        b"__PRETTY_FUNCTION__" => TokenKind::Word(Mark::FunctionName),
    }
    None
}

/// What a word is, if it is more than a name.
#[tactic(auto, unfolding(crate::specs::Ways::WordsByLength::words_of))]
fn special(text: &[u8]) -> Option<TokenKind>
    ensures { result ≡ find_text text.now (words_of (length text.now)) }
{
    match text.len() {
        2 => of_2(text),
        3 => of_3(text),
        4 => of_4(text),
        5 => of_5(text),
        6 => of_6(text),
        7 => of_7(text),
        8 => of_8(text),
        9 => of_9(text),
        10 => of_10(text),
        11 => of_11(text),
        12 => of_12(text),
        13 => of_13(text),
        16 => of_16(text),
        17 => of_17(text),
        18 => of_18(text),
        19 => of_19(text),
        _ => None,
    }
}

/// What a word is.
#[tactic(auto, using(crate::proofs::CReading::WordsByLength::word_by_length), unfolding(crate::specs::CReading::Words::word_kind))]
pub fn word_kind(text: &[u8]) -> TokenKind
    ensures { result ≡ word_kind text.now }
{
    special(text).unwrap_or(TokenKind::Word(Mark::Plain))
}
