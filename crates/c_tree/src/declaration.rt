//! Kinds of declarations, types, declarators, initializers and external definitions. Clauses are those of ISO 9899:1990.

use crate::operator::StructOrUnion;
use crate::token::Token;
use crate::tree::{Tree, Trees};

/// Initializers (6.5.7).
#[cycle(tree)]
#[derive(Clone, Copy)]
pub enum Initializer<'a> {
    /// A declared name with an initializer: `declarator = initial`. Where the initial is an expression, matching reads it as the assignment `name = initial`. `name` is an identifier of its own, whose token is the declared one.
    Init {
        name: &'a Tree<'a>,
        declarator: &'a Tree<'a>,
        initial: &'a Tree<'a>,
    },
    /// `{ elements }`; `comma` is a comma behind the last.
    Braces {
        elements: Trees<'a>,
        comma: bool,
    },
    /// `designators = initial` (ISO 9899:1999, 6.7.8).
    Designated {
        designators: Trees<'a>,
        initial: &'a Tree<'a>,
    },
}

/// Type names (6.5.5), specifiers (6.5, 6.5.2) and members (6.5.2.1).
#[cycle(tree)]
#[derive(Clone, Copy)]
pub enum Specifier<'a> {
    /// A type name (6.5.5); its declarator is abstract.
    TypeName {
        specs: &'a Tree<'a>,
        declarator: Option<&'a Tree<'a>>,
    },
    /// Declaration specifiers (6.5): words, and specifiers of structs and enumerations.
    Specs {
        items: Trees<'a>,
    },
    /// `struct tag` or `union tag`, without a body.
    StructTag {
        which: StructOrUnion,
        tag: &'a Token,
    },
    /// A struct or union with its members.
    StructBody {
        which: StructOrUnion,
        tag: Option<&'a Token>,
        members: Trees<'a>,
    },
    /// `enum tag`, without a body.
    EnumTag {
        tag: &'a Token,
    },
    /// An enumeration with its enumerators; `comma` is a comma behind the last.
    EnumBody {
        tag: Option<&'a Token>,
        enumerators: Trees<'a>,
        comma: bool,
    },
    /// Members declared together (6.5.2.1), each a declarator or a bit-field.
    StructDeclaration {
        specs: &'a Tree<'a>,
        declarators: Trees<'a>,
    },
    /// A member with a width.
    BitField {
        declarator: Option<&'a Tree<'a>>,
        width: &'a Tree<'a>,
    },
    /// A parameter.
    Param {
        specs: &'a Tree<'a>,
        declarator: Option<&'a Tree<'a>>,
    },
}

/// Declarators (6.5.4) and abstract ones (6.5.5). The pointers are stars and qualifiers, the suffixes go outward from the name.
#[cycle(tree)]
#[derive(Clone, Copy)]
pub enum Declarator<'a> {
    /// A declarator whose name stands outside parentheses.
    Named {
        pointers: &'a [Token],
        name: &'a Token,
        suffixes: Trees<'a>,
    },
    /// A declarator around one in parentheses.
    Nested {
        pointers: &'a [Token],
        inner: &'a Tree<'a>,
        suffixes: Trees<'a>,
    },
    /// An abstract declarator with no other in parentheses.
    Unnamed {
        pointers: &'a [Token],
        suffixes: Trees<'a>,
    },
}

/// Parts of specifiers, declarators and initializers, which are no nodes of their own for the height.
#[cycle(tree)]
#[derive(Clone, Copy)]
pub enum Part<'a> {
    /// A storage word, a qualifier, a word of a type, `inline`, or the name of a type.
    SpecWord {
        word: &'a Token,
    },
    /// `[bound]`, with qualifiers or `static` before the bound.
    ArrayBound {
        words: &'a [Token],
        bound: Option<&'a Tree<'a>>,
    },
    /// `(void)`
    VoidParams,
    /// `(params)`, none in `()`; `variadic` is `, ...` behind the last.
    Params {
        params: Trees<'a>,
        variadic: bool,
    },
    /// `name` or `name = value`
    Enumerator {
        name: &'a Token,
        value: Option<&'a Tree<'a>>,
    },
    /// `.member`
    MemberDesignator {
        member: &'a Token,
    },
    /// `[index]`
    IndexDesignator {
        index: &'a Tree<'a>,
    },
}

/// External definitions (6.7), and declarations in blocks.
#[cycle(tree)]
#[derive(Clone, Copy)]
pub enum Outer<'a> {
    /// A declaration: its declarators, those with an initializer as `Init`.
    Declaration {
        specs: &'a Tree<'a>,
        declarators: Trees<'a>,
    },
    /// A definition of a function; its body is a `Block`.
    Function {
        specs: &'a Tree<'a>,
        declarator: &'a Tree<'a>,
        body: &'a Tree<'a>,
    },
    /// `;` alone, in a file or among members.
    Empty,
}
