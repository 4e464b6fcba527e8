//! The operators of expressions and their levels (ISO 9899:1990, 6.3), from what binds tightest to what binds loosest.

ghost use Rattle.std.specs.Prelude.{◌≡◌, ◌+◌, length, IfSome};
ghost use Rattle.std.specs.Option.{option_map};
ghost use Rattle.c_tree.specs.Forget.{view};
ghost use Rattle.c_tree.specs.Symbol.{Sign, symbol_of, symbols_of};
ghost use Rattle.c_tree.specs.Tokens.{binary_sign, assign_sign};
ghost use Rattle.c_grammar.specs.Levels.{level_of, operand_level, grade, binary_of, assign_of, prefix_of};
ghost use Rattle.c_grammar.specs.Ways.ExpressionSteps.{take_binary, take_assign, take_prefix};
ghost use Rattle.c_expr.specs.Standing.{Passes, Leads};

use c_tree::{AssignOp, BinaryOp, Kind, Operation, Punctuator, Token, TokenKind, Tree, UnaryOp};

/// Postfix expressions (6.3.2).
pub const POSTFIX_LEVEL: u32 = 0;
/// Unary expressions (6.3.3).
pub const UNARY_LEVEL: u32 = 1;
/// Casts (6.3.4).
pub const CAST_LEVEL: u32 = 2;
/// Conditional expressions (6.3.15), which constant expressions are too (6.4).
pub const CONDITIONAL_LEVEL: u32 = 13;
/// Assignments (6.3.16).
pub const ASSIGNMENT_LEVEL: u32 = 14;
/// Expressions with commas (6.3.17).
pub const COMMA_LEVEL: u32 = 15;

/// The level of an operator between two operands.
pub(crate) fn level_of(op: BinaryOp) -> u32
    ensures { result ≡ level_of op }
{
    match op {
        BinaryOp::Multiply | BinaryOp::Divide | BinaryOp::Remainder => 3,
        BinaryOp::Add | BinaryOp::Subtract => 4,
        BinaryOp::ShiftLeft | BinaryOp::ShiftRight => 5,
        BinaryOp::Less | BinaryOp::Greater | BinaryOp::LessEqual | BinaryOp::GreaterEqual => 6,
        BinaryOp::Equal | BinaryOp::NotEqual => 7,
        BinaryOp::BitAnd => 8,
        BinaryOp::BitXor => 9,
        BinaryOp::BitOr => 10,
        BinaryOp::LogAnd => 11,
        BinaryOp::LogOr => 12,
        BinaryOp::Comma => COMMA_LEVEL,
    }
}

/// The level of the operand of an operator with one.
pub(crate) fn operand_level(op: UnaryOp) -> u32
    ensures { result ≡ operand_level op }
{
    match op {
        UnaryOp::PostInc | UnaryOp::PostDec => POSTFIX_LEVEL,
        UnaryOp::PreInc | UnaryOp::PreDec | UnaryOp::Sizeof => UNARY_LEVEL,
        _ => CAST_LEVEL,
    }
}

/// The level at which an expression stands.
pub(crate) fn grade(tree: &Tree) -> u32
    ensures { result ≡ grade (view tree.now) }
{
    match &tree.kind {
        Kind::Operation(operation) => match operation {
            Operation::Unary { op, .. } => match op {
                UnaryOp::PostInc | UnaryOp::PostDec => POSTFIX_LEVEL,
                _ => UNARY_LEVEL,
            },
            Operation::SizeofType { .. } => UNARY_LEVEL,
            Operation::Cast { .. } => CAST_LEVEL,
            Operation::Binary { op, .. } => level_of(*op),
            Operation::Cond { .. } => CONDITIONAL_LEVEL,
            Operation::Assign { .. } => ASSIGNMENT_LEVEL,
            _ => POSTFIX_LEVEL,
        },
        _ => POSTFIX_LEVEL,
    }
}

/// The operator that a token is between two operands.
fn binary_of(token: &Token) -> Option<BinaryOp>
    ensures { result ≡ binary_of (symbol_of token.now) }
{
    let TokenKind::Punct(sign) = token.kind else {
        return None;
    };
    match sign {
        Punctuator::Star => Some(BinaryOp::Multiply),
        Punctuator::Slash => Some(BinaryOp::Divide),
        Punctuator::Percent => Some(BinaryOp::Remainder),
        Punctuator::Plus => Some(BinaryOp::Add),
        Punctuator::Minus => Some(BinaryOp::Subtract),
        Punctuator::ShiftLeft => Some(BinaryOp::ShiftLeft),
        Punctuator::ShiftRight => Some(BinaryOp::ShiftRight),
        Punctuator::Less => Some(BinaryOp::Less),
        Punctuator::Greater => Some(BinaryOp::Greater),
        Punctuator::LessEqual => Some(BinaryOp::LessEqual),
        Punctuator::GreaterEqual => Some(BinaryOp::GreaterEqual),
        Punctuator::Equal => Some(BinaryOp::Equal),
        Punctuator::NotEqual => Some(BinaryOp::NotEqual),
        Punctuator::Ampersand => Some(BinaryOp::BitAnd),
        Punctuator::Caret => Some(BinaryOp::BitXor),
        Punctuator::Bar => Some(BinaryOp::BitOr),
        Punctuator::AndAnd => Some(BinaryOp::LogAnd),
        Punctuator::OrOr => Some(BinaryOp::LogOr),
        Punctuator::Comma => Some(BinaryOp::Comma),
        _ => None,
    }
}

/// The operator that a token is in an assignment.
fn assign_of(token: &Token) -> Option<AssignOp>
    ensures { result ≡ assign_of (symbol_of token.now) }
{
    let TokenKind::Punct(sign) = token.kind else {
        return None;
    };
    match sign {
        Punctuator::Assign => Some(AssignOp::Plain),
        Punctuator::StarAssign => Some(AssignOp::Multiply),
        Punctuator::SlashAssign => Some(AssignOp::Divide),
        Punctuator::PercentAssign => Some(AssignOp::Remainder),
        Punctuator::PlusAssign => Some(AssignOp::Add),
        Punctuator::MinusAssign => Some(AssignOp::Subtract),
        Punctuator::ShiftLeftAssign => Some(AssignOp::ShiftLeft),
        Punctuator::ShiftRightAssign => Some(AssignOp::ShiftRight),
        Punctuator::AmpersandAssign => Some(AssignOp::BitAnd),
        Punctuator::CaretAssign => Some(AssignOp::BitXor),
        Punctuator::BarAssign => Some(AssignOp::BitOr),
        _ => None,
    }
}

/// The operator that a token is before its operand. `sizeof` isn't among them, since it also takes a type name.
fn prefix_of(token: &Token) -> Option<UnaryOp>
    ensures { result ≡ prefix_of (symbol_of token.now) }
{
    let TokenKind::Punct(sign) = token.kind else {
        return None;
    };
    match sign {
        Punctuator::Increment => Some(UnaryOp::PreInc),
        Punctuator::Decrement => Some(UnaryOp::PreDec),
        Punctuator::Ampersand => Some(UnaryOp::AddressOf),
        Punctuator::Star => Some(UnaryOp::Deref),
        Punctuator::Plus => Some(UnaryOp::Plus),
        Punctuator::Minus => Some(UnaryOp::Minus),
        Punctuator::Tilde => Some(UnaryOp::BitNot),
        Punctuator::Exclamation => Some(UnaryOp::Not),
        _ => None,
    }
}

/// The operator of this level in front, and what follows it.
pub(crate) fn take_binary<'a>(level: u32, tokens: &'a [Token]) -> Option<(BinaryOp, &'a [Token])>
    ensures found { option_map (λ found. (found.0, symbols_of found.1.now)) result ≡ take_binary level (symbols_of tokens.now) }
    ensures passes { IfSome result (λ found. Passes (Sign (binary_sign found.0)) tokens.now found.1.now) }
    ensures shorter { IfSome result (λ found. length found.1.now + 1 ≡ length tokens.now) }
{
    match tokens {
        [] => None,
        [front, rest @ ..] => {
            let op = binary_of(front)?;
            if level_of(op) == level {
                Some((op, rest))
            } else {
                None
            }
        }
    }
}

/// The operator of an assignment in front, and what follows it.
pub(crate) fn take_assign<'a>(tokens: &'a [Token]) -> Option<(AssignOp, &'a [Token])>
    ensures found { option_map (λ found. (found.0, symbols_of found.1.now)) result ≡ take_assign (symbols_of tokens.now) }
    ensures passes { IfSome result (λ found. Passes (Sign (assign_sign found.0)) tokens.now found.1.now) }
    ensures shorter { IfSome result (λ found. length found.1.now + 1 ≡ length tokens.now) }
{
    match tokens {
        [] => None,
        [front, rest @ ..] => {
            let op = assign_of(front)?;
            Some((op, rest))
        }
    }
}

/// The operator before its operand in front, and what follows it.
pub(crate) fn take_prefix<'a>(tokens: &'a [Token]) -> Option<(UnaryOp, &'a [Token])>
    ensures found { option_map (λ found. (found.0, symbols_of found.1.now)) result ≡ take_prefix (symbols_of tokens.now) }
    ensures leads { IfSome result (λ found. Leads found.0 tokens.now found.1.now) }
    ensures shorter { IfSome result (λ found. length found.1.now + 1 ≡ length tokens.now) }
{
    match tokens {
        [] => None,
        [front, rest @ ..] => {
            let op = prefix_of(front)?;
            Some((op, rest))
        }
    }
}
