//! The holes of a checker, and what each may take. What a hole took stands elsewhere.

use c_tree::{Keyword, StructOrUnion};

/// A name that stands in patterns for what it takes. A state variable is one too.
#[derive(Clone, Copy)]
pub struct HoleDecl<'a> {
    /// The number of its name in the table of names.
    pub name: u32,
    pub of: HoleType<'a>,
}

/// What a hole may take.
#[derive(Clone, Copy)]
pub enum HoleType<'a> {
    /// `any_expr`: any expression.
    AnyExpr,
    /// `any_scalar`: an expression of arithmetic or pointer type.
    AnyScalar,
    /// `any_pointer`: an expression of pointer or array type.
    AnyPointer,
    /// `any_arguments`: the rest of a list of arguments, which may be empty.
    AnyArguments,
    /// `any_fn_call`: any callee.
    AnyFnCall,
    /// A type of C: an expression of this very type.
    Named(NamedType<'a>),
}

/// A type of C as it is written: a type and stars behind it.
#[derive(Clone, Copy)]
pub struct NamedType<'a> {
    pub base: BaseType<'a>,
    /// The number of stars.
    pub stars: u32,
}

/// A type without stars.
#[derive(Clone, Copy)]
pub enum BaseType<'a> {
    /// The words of a basic type, in the order of the text (ISO 9899:1990, 6.5.2).
    Basic { words: &'a [Keyword] },
    /// A structure or union, by the number of its tag's name.
    Tag { which: StructOrUnion, tag: u32 },
}
