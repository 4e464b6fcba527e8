//! The types of primary expressions (ISO 9899:1990, 6.3.1).

ghost use Rattle.std.specs.Prelude.{◌≡◌, IfOk};
ghost use Rattle.c_tree.specs.Views.{primary_shape};
ghost use Rattle.type_rules.specs.Ways.ScopesByCase.{within_primary};
ghost use Rattle.type_rules.specs.Ways.TablesByCase.{filled_primary};
ghost use Rattle.type_rules.specs.Ways.TypesByCase.{typed_primary};
ghost use Rattle.typed_unit.specs.Tables.{table_of};
ghost use Rattle.unit_typing.specs.Faults.{Gives};
ghost use Rattle.unit_typing.specs.Roles.{role_of};
ghost use Rattle.unit_typing.specs.Scopes.{scopes_of};

use super::{type_each, type_tree};
use crate::faults::TypeFault;
use crate::operands::identifier;
use crate::roles::Role;
use crate::scopes::Scopes;
use c_tree::{Arena, Place, Primary};
use type_values::{Arithmetic, Ty, constant_type, string_type};
use typed_unit::Table;

/// The type of a primary expression, of which `place` is the first token.
#[cycle(typing)]
pub(crate) fn type_primary<'a>(
    arena: &'a Arena,
    scopes: &mut Scopes<'a>,
    role: Role<'a>,
    place: Place,
    kind: &Primary<'a>,
    table: &mut Table<'a>,
) -> Result<Ty<'a>, TypeFault>
    ensures gives { Gives result (typed_primary (scopes_of scopes.old) (role_of role.entry) place (primary_shape kind.now)) }
    ensures scopes { IfOk result (λ _. scopes_of scopes.new ≡ within_primary (scopes_of scopes.old) (role_of role.entry) (primary_shape kind.now)) }
    ensures table { IfOk result (λ _. table_of table.new ≡ filled_primary (scopes_of scopes.old) (role_of role.entry) (primary_shape kind.now) (table_of table.old)) }
{
    match kind {
        Primary::Ident { name } => identifier(arena, scopes, role, place, name),
        Primary::Constant { token } => Ok(constant_type(token.kind)),
        Primary::StrConst { literals } => Ok(string_type(arena, literals)?),
        Primary::Paren { inner } => {
            let ty = type_tree(arena, scopes, Role::Plain, inner, table)?;
            Ok(ty)
        }
        Primary::VaArg { list, of } => {
            type_tree(arena, scopes, Role::Plain, list, table)?;
            let ty = type_tree(arena, scopes, Role::Plain, of, table)?;
            Ok(ty)
        }
        Primary::Offsetof { of, path, .. } => {
            type_tree(arena, scopes, Role::Plain, of, table)?;
            type_each(arena, scopes, Role::Plain, path, table)?;
            Ok(Ty::Arith(Arithmetic::UnsignedLong))
        }
        Primary::Hole { .. } => Ok(Ty::Void),
    }
}
