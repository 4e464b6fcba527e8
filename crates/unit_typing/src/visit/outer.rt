//! The visit of external definitions and of declarations in blocks (ISO 9899:1990, 6.5, 6.7).

ghost use Rattle.std.specs.Prelude.{◌≡◌, IfOk};
ghost use Rattle.c_tree.specs.declared.place.Place.{Place};
ghost use Rattle.c_tree.specs.Views.{outer_shape};
ghost use Rattle.type_rules.specs.Ways.ScopesByCase.{within_outer};
ghost use Rattle.type_rules.specs.Ways.TablesByCase.{filled_outer};
ghost use Rattle.type_rules.specs.Ways.TypesByCase.{typed_outer};
ghost use Rattle.typed_unit.specs.Tables.{table_of};
ghost use Rattle.unit_typing.specs.Faults.{Gives};
ghost use Rattle.unit_typing.specs.Roles.{role_of};
ghost use Rattle.unit_typing.specs.Scopes.{scopes_of};

use super::{type_each, type_tree};
use crate::faults::TypeFault;
use crate::roles::{Role, specs_role};
use crate::scopes::Scopes;
use crate::specified::specified_type;
use crate::storage::storage_of;
use c_tree::{Arena, Outer};
use type_values::Ty;
use typed_unit::Table;

/// Types an external definition or a declaration. What its specifiers say is asked before they are visited.
#[cycle(typing)]
pub(crate) fn type_outer<'a>(
    arena: &'a Arena,
    scopes: &mut Scopes<'a>,
    role: Role<'a>,
    kind: &Outer<'a>,
    table: &mut Table<'a>,
) -> Result<Ty<'a>, TypeFault>
    ensures gives { (p : Place) → Gives result (typed_outer (scopes_of scopes.old) (role_of role.entry) p (outer_shape kind.now)) }
    ensures scopes { IfOk result (λ _. scopes_of scopes.new ≡ within_outer (scopes_of scopes.old) (role_of role.entry) (outer_shape kind.now)) }
    ensures table { IfOk result (λ _. table_of table.new ≡ filled_outer (scopes_of scopes.old) (role_of role.entry) (outer_shape kind.now) (table_of table.old)) }
{
    match kind {
        Outer::Declaration { specs, declarators } => {
            let storage = storage_of(specs);
            let ty = specified_type(arena, scopes, specs)?;
            type_tree(arena, scopes, specs_role(declarators), specs, table)?;
            type_each(
                arena,
                scopes,
                Role::Declares { storage, ty },
                declarators,
                table,
            )?;
            Ok(Ty::Void)
        }
        Outer::Function {
            specs,
            declarator,
            body,
        } => {
            let storage = storage_of(specs);
            let ty = specified_type(arena, scopes, specs)?;
            type_tree(arena, scopes, Role::Plain, specs, table)?;
            type_tree(
                arena,
                scopes,
                Role::Defines { storage, ty },
                declarator,
                table,
            )?;
            type_tree(arena, scopes, Role::Body, body, table)?;
            Ok(Ty::Void)
        }
        Outer::Empty => Ok(Ty::Void),
    }
}
