//! What operators make of their operands' types (ISO 9899:1990, 6.3).

ghost use Rattle.std.specs.Prelude.{◌≡◌};
ghost use Rattle.std.specs.Option.{option_map};
ghost use Rattle.type_rules.specs.Types.{indexed, converted, moved, sum, difference, chosen, combined};
ghost use Rattle.type_values.specs.Types.{ctype_of};

use crate::arithmetic::Arithmetic;
use crate::types::Ty;
use c_tree::BinaryOp;

/// `x[y]`, where either may be the pointer (6.3.2.1).
pub fn indexed<'a>(x: Ty<'a>, y: Ty<'a>) -> Option<Ty<'a>>
    ensures { option_map ctype_of result ≡ indexed (ctype_of x.entry) (ctype_of y.entry) }
{
    match x.element() {
        Some(of) => Some(*of),
        None => match y.element() {
            Some(of) => Some(*of),
            None => None,
        },
    }
}

/// The usual arithmetic conversions (6.2.1.5). Where an operand has no arithmetic type, the answer is `int`.
pub fn converted<'a>(x: Ty<'a>, y: Ty<'a>) -> Ty<'a>
    ensures { ctype_of result ≡ converted (ctype_of x.entry) (ctype_of y.entry) }
{
    match x {
        Ty::Arith(left) => match y {
            Ty::Arith(right) => Ty::Arith(left.convert(right)),
            _ => Ty::Arith(Arithmetic::Int),
        },
        _ => Ty::Arith(Arithmetic::Int),
    }
}

/// A pointer moved by an integer.
fn moved<'a>(to: &'a Ty<'a>, by: Ty<'a>) -> Ty<'a>
    ensures { ctype_of result ≡ moved (ctype_of to.now) (ctype_of by.entry) }
{
    if by.is_integer() {
        Ty::Pointer(to)
    } else {
        Ty::Arith(Arithmetic::Int)
    }
}

/// `x + y` (6.3.6).
pub fn sum<'a>(x: Ty<'a>, y: Ty<'a>) -> Ty<'a>
    ensures { ctype_of result ≡ sum (ctype_of x.entry) (ctype_of y.entry) }
{
    match x.element() {
        Some(to) => moved(to, y),
        None => match y.element() {
            Some(to) => moved(to, x),
            None => converted(x, y),
        },
    }
}

/// `x - y` (6.3.6).
pub fn difference<'a>(x: Ty<'a>, y: Ty<'a>) -> Ty<'a>
    ensures { ctype_of result ≡ difference (ctype_of x.entry) (ctype_of y.entry) }
{
    match x.element() {
        None => converted(x, y),
        Some(to) => match y.element() {
            Some(_) => Ty::Arith(Arithmetic::Long),
            None => moved(to, y),
        },
    }
}

/// `c ? x : y` (6.3.15).
pub fn chosen<'a>(x: Ty<'a>, y: Ty<'a>) -> Ty<'a>
    ensures { ctype_of result ≡ chosen (ctype_of x.entry) (ctype_of y.entry) }
{
    if x.is_arithmetic() && y.is_arithmetic() {
        return converted(x, y);
    }
    match x.element() {
        Some(to) => Ty::Pointer(to),
        None => match y.element() {
            Some(to) => Ty::Pointer(to),
            None => x,
        },
    }
}

/// `x op y` (6.3.5 to 6.3.14, 6.3.17).
pub fn combined<'a>(op: BinaryOp, x: Ty<'a>, y: Ty<'a>) -> Ty<'a>
    ensures { ctype_of result ≡ combined op (ctype_of x.entry) (ctype_of y.entry) }
{
    match op {
        BinaryOp::Multiply
        | BinaryOp::Divide
        | BinaryOp::Remainder
        | BinaryOp::BitAnd
        | BinaryOp::BitXor
        | BinaryOp::BitOr => converted(x, y),
        BinaryOp::Add => sum(x, y),
        BinaryOp::Subtract => difference(x, y),
        BinaryOp::ShiftLeft | BinaryOp::ShiftRight => x.promoted(),
        BinaryOp::Less
        | BinaryOp::Greater
        | BinaryOp::LessEqual
        | BinaryOp::GreaterEqual
        | BinaryOp::Equal
        | BinaryOp::NotEqual
        | BinaryOp::LogAnd
        | BinaryOp::LogOr => Ty::Arith(Arithmetic::Int),
        BinaryOp::Comma => y,
    }
}
