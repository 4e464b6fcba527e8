//! The visit of jump statements (ISO 9899:1990, 6.6.6).

ghost use Rattle.std.specs.Prelude.{◌≡◌, IfOk};
ghost use Rattle.c_tree.specs.declared.place.Place.{Place};
ghost use Rattle.c_tree.specs.Views.{jump_shape};
ghost use Rattle.type_rules.specs.Ways.ScopesByCase.{within_jump};
ghost use Rattle.type_rules.specs.Ways.TablesByCase.{filled_jump};
ghost use Rattle.type_rules.specs.Ways.TypesByCase.{typed_jump};
ghost use Rattle.typed_unit.specs.Tables.{table_of};
ghost use Rattle.unit_typing.specs.Faults.{Gives};
ghost use Rattle.unit_typing.specs.Roles.{role_of};
ghost use Rattle.unit_typing.specs.Scopes.{scopes_of};

use super::type_maybe;
use crate::faults::TypeFault;
use crate::roles::Role;
use crate::scopes::Scopes;
use c_tree::{Arena, Jump};
use type_values::Ty;
use typed_unit::Table;

/// Types a jump.
#[cycle(typing)]
pub(crate) fn type_jump<'a>(
    arena: &'a Arena,
    scopes: &mut Scopes<'a>,
    role: Role<'a>,
    kind: &Jump<'a>,
    table: &mut Table<'a>,
) -> Result<Ty<'a>, TypeFault>
    ensures gives { (p : Place) → Gives result (typed_jump (scopes_of scopes.old) (role_of role.entry) p (jump_shape kind.now)) }
    ensures scopes { IfOk result (λ _. scopes_of scopes.new ≡ within_jump (scopes_of scopes.old) (role_of role.entry) (jump_shape kind.now)) }
    ensures table { IfOk result (λ _. table_of table.new ≡ filled_jump (scopes_of scopes.old) (role_of role.entry) (jump_shape kind.now) (table_of table.old)) }
{
    match kind {
        Jump::Return { value } => {
            type_maybe(arena, scopes, Role::Plain, *value, table)?;
            Ok(Ty::Void)
        }
        Jump::Goto { .. } | Jump::Continue | Jump::Break => Ok(Ty::Void),
    }
}
