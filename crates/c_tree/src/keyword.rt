//! The keywords of C (ISO 9899:1990, 6.1.1, and those of later editions and of GNU C that a preprocessed file holds).

/// A keyword. Those of ISO 9899:1990 come first, in its order, then those that ISO 9899:1999 adds, then those of GNU C.
#[derive(Clone, Copy, PartialEq, Eq)]
pub enum Keyword {
    /// `auto`
    Auto,
    /// `break`
    Break,
    /// `case`
    Case,
    /// `char`
    Char,
    /// `const`
    Const,
    /// `continue`
    Continue,
    /// `default`
    Default,
    /// `do`
    Do,
    /// `double`
    Double,
    /// `else`
    Else,
    /// `enum`
    Enum,
    /// `extern`
    Extern,
    /// `float`
    Float,
    /// `for`
    For,
    /// `goto`
    Goto,
    /// `if`
    If,
    /// `int`
    Int,
    /// `long`
    Long,
    /// `register`
    Register,
    /// `return`
    Return,
    /// `short`
    Short,
    /// `signed`
    Signed,
    /// `sizeof`
    Sizeof,
    /// `static`
    Static,
    /// `struct`
    Struct,
    /// `switch`
    Switch,
    /// `typedef`
    Typedef,
    /// `union`
    Union,
    /// `unsigned`
    Unsigned,
    /// `void`
    Void,
    /// `volatile`
    Volatile,
    /// `while`
    While,

    /// `inline`
    Inline,
    /// `restrict`
    Restrict,
    /// `_Bool`
    Bool,

    /// `__int128`
    Int128,
    /// `_Float32`
    Float32,
    /// `_Float32x`
    Float32x,
    /// `_Float64`
    Float64,
    /// `_Float64x`
    Float64x,
    /// `_Float128`
    Float128,
    /// `__float128`, another spelling of the type `_Float128`
    GnuFloat128,
    /// `__builtin_va_list`
    BuiltinVaList,
    /// `__builtin_va_arg`
    BuiltinVaArg,
    /// `__builtin_offsetof`
    BuiltinOffsetof,
}
