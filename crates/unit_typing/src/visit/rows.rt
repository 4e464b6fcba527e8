//! What operators make of the types of their operands, or the fault that they name (ISO 9899:1990, 6.3.2, 6.3.3, 6.3.16).

ghost use Rattle.std.specs.Prelude.{◌≡◌, ◌||◌, Ok, Err, cond};
ghost use Rattle.c_tree.specs.Node.{Node};
ghost use Rattle.type_rules.specs.Faults as fault;
ghost use Rattle.type_rules.specs.Options.{or_fault, ◌>>=◌ as and_then};
ghost use Rattle.type_rules.specs.Rows as lines;
ghost use Rattle.type_rules.specs.Scopes as held;
ghost use Rattle.type_rules.specs.Types as types;
ghost use Rattle.type_values.specs.Types.{ctype_of};
ghost use Rattle.unit_typing.specs.Faults.{Gives};
ghost use Rattle.unit_typing.specs.Scopes.{scopes_of};

use crate::faults::TypeFault;
use crate::operands::member;
use crate::scopes::Scopes;
use c_tree::{Arena, Place, Token, UnaryOp};
use type_values::{Arithmetic, Ty, indexed};

/// `x[y]` (6.3.2.1).
pub(crate) fn index_row<'a>(place: Place, x: Ty<'a>, y: Ty<'a>) -> Result<Ty<'a>, TypeFault>
    ensures { Gives result (or_fault (types.indexed (ctype_of x.entry) (ctype_of y.entry)) (fault.NotPointer place)) }
{
    match indexed(x, y) {
        Some(ty) => Ok(ty),
        None => Err(TypeFault::NotPointer { place }),
    }
}

/// A call of what has this type (6.3.2.2).
pub(crate) fn call_row<'a>(place: Place, ty: Ty<'a>) -> Result<Ty<'a>, TypeFault>
    ensures { Gives result (or_fault (types.called (ctype_of ty.entry)) (fault.NotFunction place)) }
{
    match ty.called() {
        Some(ty) => Ok(ty),
        None => Err(TypeFault::NotFunction { place }),
    }
}

/// `x->name`, where this is the type of `x` (6.3.2.3).
pub(crate) fn arrow_row<'a>(
    scopes: &Scopes<'a>,
    place: Place,
    name: &Token,
    ty: Ty<'a>,
) -> Result<Ty<'a>, TypeFault>
    ensures { Gives result (and_then (or_fault (types.element (ctype_of ty.entry)) (fault.NotPointer place)) (λ t. lines.member (scopes_of scopes.now) place name.now t)) }
{
    match ty.element() {
        Some(to) => member(scopes, place, name, *to),
        None => Err(TypeFault::NotPointer { place }),
    }
}

/// `*x` (6.3.3.2).
fn deref_row<'a>(place: Place, ty: Ty<'a>) -> Result<Ty<'a>, TypeFault>
    ensures { Gives result (or_fault (types.pointed (ctype_of ty.entry)) (fault.NotPointer place)) }
{
    match ty.pointed() {
        Some(ty) => Ok(ty),
        None => Err(TypeFault::NotPointer { place }),
    }
}

/// The type of an operand that has to be an lvalue (6.3.2.4, 6.3.3.1, 6.3.16).
pub(crate) fn if_lvalue<'a>(place: Place, lvalue: bool, ty: Ty<'a>) -> Result<Ty<'a>, TypeFault>
    ensures { Gives result (cond lvalue (Ok (ctype_of ty.entry)) (Err (fault.NotLvalue place))) }
{
    if lvalue {
        Ok(ty)
    } else {
        Err(TypeFault::NotLvalue { place })
    }
}

/// `&x` (6.3.3.2).
fn address_row<'a>(
    arena: &'a Arena,
    place: Place,
    lvalue: bool,
    ty: Ty<'a>,
) -> Result<Ty<'a>, TypeFault>
    ensures { Gives result (cond (types.is_function (ctype_of ty.entry) || lvalue) (Ok (types.Pointer (ctype_of ty.entry))) (Err (fault.NotLvalue place))) }
{
    if ty.is_function() || lvalue {
        Ok(ty.pointer_to(arena)?)
    } else {
        Err(TypeFault::NotLvalue { place })
    }
}

/// An operator with one operand (6.3.2.4, 6.3.3). `lvalue` tells whether the operand is an lvalue where it stands.
pub(crate) fn unary_row<'a>(
    arena: &'a Arena,
    place: Place,
    op: UnaryOp,
    lvalue: bool,
    ty: Ty<'a>,
) -> Result<Ty<'a>, TypeFault>
    ensures { (v : held.Scopes) (e : Node) → lvalue ≡ lines.is_lvalue v e → Gives result (lines.unary_row v place op e (ctype_of ty.entry)) }
{
    match op {
        UnaryOp::PostInc | UnaryOp::PostDec | UnaryOp::PreInc | UnaryOp::PreDec => {
            if_lvalue(place, lvalue, ty)
        }
        UnaryOp::AddressOf => address_row(arena, place, lvalue, ty),
        UnaryOp::Deref => deref_row(place, ty),
        UnaryOp::Plus | UnaryOp::Minus | UnaryOp::BitNot => Ok(ty.promoted()),
        UnaryOp::Not => Ok(Ty::Arith(Arithmetic::Int)),
        UnaryOp::Sizeof => Ok(Ty::Arith(Arithmetic::UnsignedLong)),
    }
}
