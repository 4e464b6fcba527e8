//! Trees as they are compared, level by level: the head of a tree and its parts.

use c_tree::{AssignOp, BinaryOp, StructOrUnion, Token, Tree, Trees, UnaryOp};

/// A kind of which nothing else is said than its tokens and trees.
#[derive(Clone, Copy, PartialEq, Eq)]
pub enum Form {
    Ident,
    Constant,
    StrConst,
    Paren,
    VaArg,
    Offsetof,
    Index,
    Call,
    Member,
    Arrow,
    CompoundLit,
    SizeofType,
    Cast,
    Cond,
    Init,
    Designated,
    TypeName,
    Specs,
    EnumTag,
    StructDeclaration,
    BitField,
    Param,
    Named,
    Nested,
    Unnamed,
    SpecWord,
    ArrayBound,
    VoidParams,
    Enumerator,
    MemberDesignator,
    IndexDesignator,
    Declaration,
    Function,
    Empty,
    Block,
    ExprStmt,
    If,
    Switch,
    Case,
    Default,
    Label,
    While,
    Do,
    For,
    ForDeclaration,
    Goto,
    Continue,
    Break,
    Return,
}

/// What a tree is beside its tokens and the trees below it.
#[derive(Clone, Copy)]
pub enum Head {
    Plain(Form),
    /// A hole, by its number.
    Hole(u8),
    Unary(UnaryOp),
    Binary(BinaryOp),
    Assign(AssignOp),
    /// A list in braces; whether a comma stands at its end.
    Braces(bool),
    StructTag(StructOrUnion),
    StructBody(StructOrUnion),
    /// Enumerators in braces; whether a comma stands at their end.
    EnumBody(bool),
    /// Parameters; whether `...` stands behind them.
    Params(bool),
}

/// The tokens of a tree that are no fixed ones.
#[derive(Clone, Copy)]
pub enum Words<'a> {
    /// A constant.
    Value(&'a Token),
    /// A token, or none.
    Single(Option<&'a Token>),
    Several(&'a [Token]),
    /// Pointers, and a name behind them.
    Declared(&'a [Token], Option<&'a Token>),
}

/// The trees below a tree in the order of its line of the grammar, but for a list, which comes last.
#[derive(Clone, Copy)]
pub enum Branches<'a> {
    Two(Option<&'a Tree<'a>>, Option<&'a Tree<'a>>),
    Four(Option<&'a Tree<'a>>, Option<&'a Tree<'a>>, Option<&'a Tree<'a>>, Option<&'a Tree<'a>>),
    Listed(Option<&'a Tree<'a>>, Trees<'a>),
}

/// The head of a tree, its tokens, and the trees below it.
#[derive(Clone, Copy)]
pub struct Level<'a> {
    pub head: Head,
    pub words: Words<'a>,
    pub branches: Branches<'a>,
}

/// How a tree is seen.
#[derive(Clone, Copy)]
pub enum Seeing {
    /// As it is written.
    AsWritten,
    /// As C reads it.
    AsRead,
    /// What it points to, as C reads it.
    PointedTo,
}

/// A level, and how its trees are seen.
#[derive(Clone, Copy)]
pub struct Seen<'a> {
    pub how: Seeing,
    pub level: Level<'a>,
}
