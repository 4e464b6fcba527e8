//! Types of constants and strings (ISO 9899:1990, 6.1.3, 6.1.4).

ghost use Rattle.std.specs.Prelude.{◌≡◌, IfOk, map};
ghost use Rattle.type_rules.specs.Constants.{integer_types, first_holding, float_type, constant_type, is_wide, any_wide, string_type};
ghost use Rattle.type_values.specs.Types.{arithmetic_of, ctype_of};

use crate::arithmetic::Arithmetic;
use crate::types::Ty;
use c_tree::{Arena, FloatEnd, Token, TokenKind};
use std::alloc::AllocError;

const DECIMAL: &[Arithmetic] = &[Arithmetic::Int, Arithmetic::Long, Arithmetic::UnsignedLong];

const OCTAL: &[Arithmetic] = &[
    Arithmetic::Int,
    Arithmetic::UnsignedInt,
    Arithmetic::Long,
    Arithmetic::UnsignedLong,
];

const UNSIGNED: &[Arithmetic] = &[Arithmetic::UnsignedInt, Arithmetic::UnsignedLong];

const LONG: &[Arithmetic] = &[Arithmetic::Long, Arithmetic::UnsignedLong];

const UNSIGNED_LONG: &[Arithmetic] = &[Arithmetic::UnsignedLong];

const LONG_LONG: &[Arithmetic] = &[Arithmetic::LongLong, Arithmetic::UnsignedLongLong];

const UNSIGNED_LONG_LONG: &[Arithmetic] = &[Arithmetic::UnsignedLongLong];

/// The first of these types that holds the value.
fn first_holding(value: u64, kinds: &[Arithmetic]) -> Arithmetic
    ensures { arithmetic_of result ≡ first_holding value (map arithmetic_of kinds.now) }
{
    for kind in kinds {
        if kind.holds(value) {
            return *kind;
        }
    }
    Arithmetic::UnsignedLong
}

/// The type of an integer constant (6.1.3.2): by whether it is decimal, whether it has `u`, and its number of `l`.
fn integer_type(value: u64, decimal: bool, unsigned: bool, longs: u8) -> Arithmetic
    ensures { arithmetic_of result ≡ first_holding value (integer_types decimal unsigned longs) }
{
    match longs {
        0 => {
            if unsigned {
                first_holding(value, UNSIGNED)
            } else if decimal {
                first_holding(value, DECIMAL)
            } else {
                first_holding(value, OCTAL)
            }
        }
        1 => {
            if unsigned {
                first_holding(value, UNSIGNED_LONG)
            } else {
                first_holding(value, LONG)
            }
        }
        _ => {
            if unsigned {
                first_holding(value, UNSIGNED_LONG_LONG)
            } else {
                first_holding(value, LONG_LONG)
            }
        }
    }
}

/// The type of a floating constant by its end (6.1.3.1).
fn float_type(end: FloatEnd) -> Arithmetic
    ensures { arithmetic_of result ≡ float_type end }
{
    match end {
        FloatEnd::Double => Arithmetic::Double,
        FloatEnd::F => Arithmetic::Float,
        FloatEnd::L => Arithmetic::LongDouble,
    }
}

/// The type of a constant. What is no constant has none; `Void` stands for it.
pub fn constant_type<'a>(kind: TokenKind) -> Ty<'a>
    ensures { ctype_of result ≡ constant_type kind }
{
    match kind {
        TokenKind::Int {
            value,
            decimal,
            unsigned,
            longs,
        } => Ty::Arith(integer_type(value, decimal, unsigned, longs)),
        TokenKind::Float(end) => Ty::Arith(float_type(end)),
        TokenKind::Char { .. } => Ty::Arith(Arithmetic::Int),
        _ => Ty::Void,
    }
}

/// Whether it is a wide string literal.
fn is_wide(kind: TokenKind) -> bool
    ensures { result ≡ is_wide kind }
{
    match kind {
        TokenKind::Str { wide } => wide,
        _ => false,
    }
}

/// Whether one of the adjacent literals is wide.
fn any_wide(literals: &[Token]) -> bool
    ensures { result ≡ any_wide literals.now }
{
    for literal in literals {
        if is_wide(literal.kind) {
            return true;
        }
    }
    false
}

/// The type of adjacent string literals: an array of `char`, or of `int` where one of them is wide.
pub fn string_type<'a>(arena: &'a Arena, literals: &[Token]) -> Result<Ty<'a>, AllocError>
    ensures { IfOk result (λ t. ctype_of t ≡ string_type literals.now) }
{
    let element = if any_wide(literals) {
        Arithmetic::Int
    } else {
        Arithmetic::Char
    };
    Ty::Arith(element).array_of(arena)
}
