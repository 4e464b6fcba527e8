//! Operators and words that tell nodes of one kind apart.

ghost use Rattle.std.specs.Prelude.{◌≡◌};
ghost use Rattle.c_tree.specs.Tokens.{binary_sign, assign_sign, word_of};

use crate::keyword::Keyword;
use crate::punctuator::Punctuator;

/// An operator with one operand (ISO 9899:1990, 6.3.2.4 and 6.3.3).
#[derive(Clone, Copy, PartialEq, Eq)]
pub enum UnaryOp {
    /// `operand++`
    PostInc,
    /// `operand--`
    PostDec,
    /// `++operand`
    PreInc,
    /// `--operand`
    PreDec,
    /// `&operand`
    AddressOf,
    /// `*operand`
    Deref,
    /// `+operand`
    Plus,
    /// `-operand`
    Minus,
    /// `~operand`
    BitNot,
    /// `!operand`
    Not,
    /// `sizeof operand`
    Sizeof,
}

/// An operator between two operands (ISO 9899:1990, 6.3.5 to 6.3.14 and 6.3.17).
#[derive(Clone, Copy, PartialEq, Eq)]
pub enum BinaryOp {
    /// `*`
    Multiply,
    /// `/`
    Divide,
    /// `%`
    Remainder,
    /// `+`
    Add,
    /// `-`
    Subtract,
    /// `<<`
    ShiftLeft,
    /// `>>`
    ShiftRight,
    /// `<`
    Less,
    /// `>`
    Greater,
    /// `<=`
    LessEqual,
    /// `>=`
    GreaterEqual,
    /// `==`
    Equal,
    /// `!=`
    NotEqual,
    /// `&`
    BitAnd,
    /// `^`
    BitXor,
    /// `|`
    BitOr,
    /// `&&`
    LogAnd,
    /// `||`
    LogOr,
    /// `,`
    Comma,
}

impl BinaryOp {
    /// The punctuator that it is written as.
    pub fn sign(self) -> Punctuator
        ensures { result ≡ binary_sign self }
    {
        match self {
            BinaryOp::Multiply => Punctuator::Star,
            BinaryOp::Divide => Punctuator::Slash,
            BinaryOp::Remainder => Punctuator::Percent,
            BinaryOp::Add => Punctuator::Plus,
            BinaryOp::Subtract => Punctuator::Minus,
            BinaryOp::ShiftLeft => Punctuator::ShiftLeft,
            BinaryOp::ShiftRight => Punctuator::ShiftRight,
            BinaryOp::Less => Punctuator::Less,
            BinaryOp::Greater => Punctuator::Greater,
            BinaryOp::LessEqual => Punctuator::LessEqual,
            BinaryOp::GreaterEqual => Punctuator::GreaterEqual,
            BinaryOp::Equal => Punctuator::Equal,
            BinaryOp::NotEqual => Punctuator::NotEqual,
            BinaryOp::BitAnd => Punctuator::Ampersand,
            BinaryOp::BitXor => Punctuator::Caret,
            BinaryOp::BitOr => Punctuator::Bar,
            BinaryOp::LogAnd => Punctuator::AndAnd,
            BinaryOp::LogOr => Punctuator::OrOr,
            BinaryOp::Comma => Punctuator::Comma,
        }
    }
}

/// An operator that assigns (ISO 9899:1990, 6.3.16).
#[derive(Clone, Copy, PartialEq, Eq)]
pub enum AssignOp {
    /// `=`
    Plain,
    /// `*=`
    Multiply,
    /// `/=`
    Divide,
    /// `%=`
    Remainder,
    /// `+=`
    Add,
    /// `-=`
    Subtract,
    /// `<<=`
    ShiftLeft,
    /// `>>=`
    ShiftRight,
    /// `&=`
    BitAnd,
    /// `^=`
    BitXor,
    /// `|=`
    BitOr,
}

impl AssignOp {
    /// The punctuator that it is written as.
    pub fn sign(self) -> Punctuator
        ensures { result ≡ assign_sign self }
    {
        match self {
            AssignOp::Plain => Punctuator::Assign,
            AssignOp::Multiply => Punctuator::StarAssign,
            AssignOp::Divide => Punctuator::SlashAssign,
            AssignOp::Remainder => Punctuator::PercentAssign,
            AssignOp::Add => Punctuator::PlusAssign,
            AssignOp::Subtract => Punctuator::MinusAssign,
            AssignOp::ShiftLeft => Punctuator::ShiftLeftAssign,
            AssignOp::ShiftRight => Punctuator::ShiftRightAssign,
            AssignOp::BitAnd => Punctuator::AmpersandAssign,
            AssignOp::BitXor => Punctuator::CaretAssign,
            AssignOp::BitOr => Punctuator::BarAssign,
        }
    }
}

/// The word of a structure or union specifier (ISO 9899:1990, 6.5.2.1).
#[derive(Clone, Copy, PartialEq, Eq)]
pub enum StructOrUnion {
    Struct,
    Union,
}

impl StructOrUnion {
    /// The keyword that it is.
    pub fn word(self) -> Keyword
        ensures { result ≡ word_of self }
    {
        match self {
            StructOrUnion::Struct => Keyword::Struct,
            StructOrUnion::Union => Keyword::Union,
        }
    }
}
