//! The visit of initializers (ISO 9899:1990, 6.5.7).

ghost use Rattle.std.specs.Prelude.{◌≡◌, IfOk};
ghost use Rattle.c_tree.specs.declared.place.Place.{Place};
ghost use Rattle.c_tree.specs.Views.{initializer_shape};
ghost use Rattle.type_rules.specs.Ways.ScopesByCase.{within_initializer};
ghost use Rattle.type_rules.specs.Ways.TablesByCase.{filled_initializer};
ghost use Rattle.type_rules.specs.Ways.TypesByCase.{typed_initializer};
ghost use Rattle.typed_unit.specs.Tables.{table_of};
ghost use Rattle.unit_typing.specs.Faults.{Gives};
ghost use Rattle.unit_typing.specs.Roles.{role_of};
ghost use Rattle.unit_typing.specs.Scopes.{scopes_of};

use super::{type_each, type_tree};
use crate::faults::TypeFault;
use crate::roles::Role;
use crate::scopes::Scopes;
use c_tree::{Arena, Initializer};
use type_values::Ty;
use typed_unit::Table;

/// Types an initializer. A declarator with an initial has the type of its name, which is in force in the initial.
#[cycle(typing)]
pub(crate) fn type_initializer<'a>(
    arena: &'a Arena,
    scopes: &mut Scopes<'a>,
    role: Role<'a>,
    kind: &Initializer<'a>,
    table: &mut Table<'a>,
) -> Result<Ty<'a>, TypeFault>
    ensures gives { (p : Place) → Gives result (typed_initializer (scopes_of scopes.old) (role_of role.entry) p (initializer_shape kind.now)) }
    ensures scopes { IfOk result (λ _. scopes_of scopes.new ≡ within_initializer (scopes_of scopes.old) (role_of role.entry) (initializer_shape kind.now)) }
    ensures table { IfOk result (λ _. table_of table.new ≡ filled_initializer (scopes_of scopes.old) (role_of role.entry) (initializer_shape kind.now) (table_of table.old)) }
{
    match kind {
        Initializer::Init {
            name,
            declarator,
            initial,
        } => {
            type_tree(arena, scopes, role, declarator, table)?;
            let ty = type_tree(arena, scopes, Role::Plain, name, table)?;
            type_tree(arena, scopes, Role::Plain, initial, table)?;
            Ok(ty)
        }
        Initializer::Braces { elements, .. } => {
            type_each(arena, scopes, Role::Plain, elements, table)?;
            Ok(Ty::Void)
        }
        Initializer::Designated {
            designators,
            initial,
        } => {
            type_each(arena, scopes, Role::Plain, designators, table)?;
            type_tree(arena, scopes, Role::Plain, initial, table)?;
            Ok(Ty::Void)
        }
    }
}
