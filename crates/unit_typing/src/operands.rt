//! Names, lvalues, members and operators with one operand (ISO 9899:1990, 6.2.2.1, 6.3.1 to 6.3.3).

ghost use Rattle.std.specs.Prelude.{◌≡◌};
ghost use Rattle.std.specs.Option.{option_map};
ghost use Rattle.c_tree.specs.Views.{node_of, primary_shape, operation_shape};
ghost use Rattle.type_rules.specs.Rows.{is_function_name, undeclared, identifier, is_object, variable_of, is_deref, is_lvalue, is_primary_lvalue, is_operation_lvalue, member_in, member};
ghost use Rattle.type_values.specs.Types.{ctype_of};
ghost use Rattle.type_values.specs.Vars.{cvar_of};
ghost use Rattle.unit_typing.specs.Faults.{Gives};
ghost use Rattle.unit_typing.specs.Roles.{role_of};
ghost use Rattle.unit_typing.specs.Scopes.{scopes_of};
ghost use Rattle.unit_typing.specs.Views.{name_entry};

use crate::faults::TypeFault;
use crate::names::{Class, NameEntry};
use crate::roles::Role;
use crate::scopes::Scopes;
use c_tree::{Arena, Kind, Mark, Operation, Place, Primary, Token, TokenKind, Tree, UnaryOp};
use type_values::{Arithmetic, Ty, Var};

fn is_function_name(kind: TokenKind) -> bool
    ensures { result ≡ is_function_name kind }
{
    match kind {
        TokenKind::Word(Mark::FunctionName) => true,
        _ => false,
    }
}

/// The type of a name that isn't in scope: a callee is a function giving `int` (6.3.2.2).
fn undeclared<'a>(
    arena: &'a Arena,
    role: Role<'a>,
    place: Place,
    name: &Token,
) -> Result<Ty<'a>, TypeFault>
    ensures { Gives result (undeclared (role_of role.entry) place name.now) }
{
    if is_function_name(name.kind) {
        return Ok(Ty::Arith(Arithmetic::Char).array_of(arena)?);
    }
    if role.is_callee() {
        return Ok(Ty::Arith(Arithmetic::Int).function_giving(arena)?);
    }
    Err(TypeFault::Undeclared {
        place,
        name: name.name,
    })
}

/// The type of a name by itself.
pub fn identifier<'a>(
    arena: &'a Arena,
    scopes: &Scopes<'a>,
    role: Role<'a>,
    place: Place,
    name: &Token,
) -> Result<Ty<'a>, TypeFault>
    ensures { Gives result (identifier (scopes_of scopes.now) (role_of role.entry) place name.now) }
{
    match scopes.latest(name.name) {
        Some(entry) => Ok(entry.ty),
        None => undeclared(arena, role, place, name),
    }
}

/// Whether a name in scope stands for an object.
pub fn is_object(entry: NameEntry) -> bool
    ensures { result ≡ is_object (name_entry entry.entry) }
{
    match entry.class {
        Class::Variable => !entry.ty.is_function(),
        Class::Typedef | Class::Enumerator => false,
    }
}

/// The variable that a name stands for; a function is none.
pub fn variable_of(scopes: &Scopes, name: u32) -> Option<Var>
    ensures { option_map cvar_of result ≡ variable_of (scopes_of scopes.now) name }
{
    match scopes.latest(name) {
        None => None,
        Some(entry) => if is_object(entry) { entry.var } else { None },
    }
}

fn is_deref(op: UnaryOp) -> bool
    ensures { result ≡ is_deref op }
{
    match op {
        UnaryOp::Deref => true,
        _ => false,
    }
}

/// Whether an expression is an lvalue.
#[cycle(lvalue)]
pub fn is_lvalue(scopes: &Scopes, tree: &Tree) -> bool
    ensures { result ≡ is_lvalue (scopes_of scopes.now) (node_of tree.now) }
{
    match &tree.kind {
        Kind::Primary(kind) => is_primary_lvalue(scopes, kind),
        Kind::Operation(kind) => is_operation_lvalue(scopes, kind),
        _ => false,
    }
}

#[cycle(lvalue)]
fn is_primary_lvalue(scopes: &Scopes, kind: &Primary) -> bool
    ensures { result ≡ is_primary_lvalue (scopes_of scopes.now) (primary_shape kind.now) }
{
    match kind {
        Primary::Ident { name } => match scopes.latest(name.name) {
            None => false,
            Some(entry) => is_object(entry),
        },
        Primary::StrConst { .. } => true,
        Primary::Paren { inner } => is_lvalue(scopes, inner),
        _ => false,
    }
}

#[cycle(lvalue)]
fn is_operation_lvalue(scopes: &Scopes, kind: &Operation) -> bool
    ensures { result ≡ is_operation_lvalue (scopes_of scopes.now) (operation_shape kind.now) }
{
    match kind {
        Operation::Index { .. } | Operation::Arrow { .. } | Operation::CompoundLit { .. } => true,
        Operation::Member { operand, .. } => is_lvalue(scopes, operand),
        Operation::Unary { op, .. } => is_deref(*op),
        _ => false,
    }
}

/// A member of the structure or union of this number, where that is complete (6.3.2.3).
fn member_in<'a>(
    scopes: &Scopes<'a>,
    place: Place,
    name: &Token,
    number: u32,
) -> Result<Ty<'a>, TypeFault>
    ensures { Gives result (member_in (scopes_of scopes.now) place name.now number) }
{
    if !scopes.is_complete(number) {
        return Err(TypeFault::NotStruct { place });
    }
    match scopes.member_of(number, name.name) {
        Some(member) => Ok(member.ty),
        None => Err(TypeFault::NoField {
            place,
            name: name.name,
        }),
    }
}

/// The type of `x.name`, where this is the type of `x`.
pub fn member<'a>(
    scopes: &Scopes<'a>,
    place: Place,
    name: &Token,
    ty: Ty<'a>,
) -> Result<Ty<'a>, TypeFault>
    ensures { Gives result (member (scopes_of scopes.now) place name.now (ctype_of ty.entry)) }
{
    match ty {
        Ty::Struct(number) => member_in(scopes, place, name, number),
        Ty::Union(number) => member_in(scopes, place, name, number),
        _ => Err(TypeFault::NotStruct { place }),
    }
}
