//! How keywords and punctuators are spelled.

use c_tree::{Keyword, Punctuator};

static KEYWORDS: [(Keyword, &str); 45] = [
    (Keyword::Sizeof, "sizeof"),
    (Keyword::BuiltinVaArg, "__builtin_va_arg"),
    (Keyword::BuiltinOffsetof, "__builtin_offsetof"),
    (Keyword::Typedef, "typedef"),
    (Keyword::Extern, "extern"),
    (Keyword::Static, "static"),
    (Keyword::Auto, "auto"),
    (Keyword::Register, "register"),
    (Keyword::Inline, "inline"),
    (Keyword::Const, "const"),
    (Keyword::Volatile, "volatile"),
    (Keyword::Restrict, "restrict"),
    (Keyword::Void, "void"),
    (Keyword::Char, "char"),
    (Keyword::Short, "short"),
    (Keyword::Int, "int"),
    (Keyword::Long, "long"),
    (Keyword::Float, "float"),
    (Keyword::Double, "double"),
    (Keyword::Signed, "signed"),
    (Keyword::Unsigned, "unsigned"),
    (Keyword::Bool, "_Bool"),
    (Keyword::Int128, "__int128"),
    (Keyword::Float32, "_Float32"),
    (Keyword::Float32x, "_Float32x"),
    (Keyword::Float64, "_Float64"),
    (Keyword::Float64x, "_Float64x"),
    (Keyword::Float128, "_Float128"),
    (Keyword::GnuFloat128, "__float128"),
    (Keyword::BuiltinVaList, "__builtin_va_list"),
    (Keyword::Struct, "struct"),
    (Keyword::Union, "union"),
    (Keyword::Enum, "enum"),
    (Keyword::If, "if"),
    (Keyword::Else, "else"),
    (Keyword::Switch, "switch"),
    (Keyword::Case, "case"),
    (Keyword::Default, "default"),
    (Keyword::While, "while"),
    (Keyword::Do, "do"),
    (Keyword::For, "for"),
    (Keyword::Goto, "goto"),
    (Keyword::Continue, "continue"),
    (Keyword::Break, "break"),
    (Keyword::Return, "return"),
];

static SIGNS: [(Punctuator, &str); 48] = [
    (Punctuator::OpenParen, "("),
    (Punctuator::Increment, "++"),
    (Punctuator::Decrement, "--"),
    (Punctuator::Ampersand, "&"),
    (Punctuator::Star, "*"),
    (Punctuator::Plus, "+"),
    (Punctuator::Minus, "-"),
    (Punctuator::Tilde, "~"),
    (Punctuator::Exclamation, "!"),
    (Punctuator::OpenBracket, "["),
    (Punctuator::CloseBracket, "]"),
    (Punctuator::CloseParen, ")"),
    (Punctuator::OpenBrace, "{"),
    (Punctuator::CloseBrace, "}"),
    (Punctuator::Dot, "."),
    (Punctuator::Arrow, "->"),
    (Punctuator::Question, "?"),
    (Punctuator::Colon, ":"),
    (Punctuator::Semicolon, ";"),
    (Punctuator::Comma, ","),
    (Punctuator::Ellipsis, "..."),
    (Punctuator::Slash, "/"),
    (Punctuator::Percent, "%"),
    (Punctuator::ShiftLeft, "<<"),
    (Punctuator::ShiftRight, ">>"),
    (Punctuator::Less, "<"),
    (Punctuator::Greater, ">"),
    (Punctuator::LessEqual, "<="),
    (Punctuator::GreaterEqual, ">="),
    (Punctuator::Equal, "=="),
    (Punctuator::NotEqual, "!="),
    (Punctuator::Caret, "^"),
    (Punctuator::Bar, "|"),
    (Punctuator::AndAnd, "&&"),
    (Punctuator::OrOr, "||"),
    (Punctuator::Assign, "="),
    (Punctuator::StarAssign, "*="),
    (Punctuator::SlashAssign, "/="),
    (Punctuator::PercentAssign, "%="),
    (Punctuator::PlusAssign, "+="),
    (Punctuator::MinusAssign, "-="),
    (Punctuator::ShiftLeftAssign, "<<="),
    (Punctuator::ShiftRightAssign, ">>="),
    (Punctuator::AmpersandAssign, "&="),
    (Punctuator::CaretAssign, "^="),
    (Punctuator::BarAssign, "|="),
    (Punctuator::Dollar, "$"),
    (Punctuator::LongArrow, "==>"),
];

/// The spelling of a keyword.
pub fn keyword_text(keyword: Keyword) -> &'static str {
    for (known, text) in &KEYWORDS {
        if *known == keyword {
            return *text;
        }
    }
    "?"
}

/// The spelling of a punctuator.
pub fn sign_text(sign: Punctuator) -> &'static str {
    for (known, text) in &SIGNS {
        if *known == sign {
            return *text;
        }
    }
    "?"
}
