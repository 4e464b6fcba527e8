//! The visit of parts of specifiers, declarators and initializers (ISO 9899:1990, 6.5.2.2, 6.5.4, 6.5.7).

ghost use Rattle.std.specs.Prelude.{◌≡◌, Ok, IfOk};
ghost use Rattle.c_tree.specs.declared.place.Place.{Place};
ghost use Rattle.c_tree.specs.Node as nodes;
ghost use Rattle.c_tree.specs.Views.{nodes_of, option_node, part_shape};
ghost use Rattle.type_rules.specs.Moves.{closed, left_params};
ghost use Rattle.type_rules.specs.Declarators as declared;
ghost use Rattle.type_rules.specs.Options.{◌>>=◌ as and_then};
ghost use Rattle.type_rules.specs.Roles.{Plain};
ghost use Rattle.type_rules.specs.Rows.{name_row};
ghost use Rattle.type_rules.specs.Scopes.{deeper, with_name};
ghost use Rattle.type_rules.specs.Scopes as held;
ghost use Rattle.type_rules.specs.Ways.ScopesByCase.{scoped_each, scoped_maybe, within_part};
ghost use Rattle.type_rules.specs.Stays.{Stays};
ghost use Rattle.type_rules.specs.Ways.TablesByCase.{filled_each, filled_maybe, filled_part};
ghost use Rattle.type_rules.specs.Types.{Void};
ghost use Rattle.type_rules.specs.Ways.TypesByCase.{typed_each, typed_maybe, typed_part};
ghost use Rattle.typed_unit.specs.Tables.{table_of};
ghost use Rattle.unit_typing.specs.Faults.{Gives};
ghost use Rattle.unit_typing.specs.Roles.{role_of};
ghost use Rattle.unit_typing.specs.Scopes.{IsMark, scopes_of};

use super::declarators::declare_name;
use super::{type_each, type_maybe, type_tree};
use crate::declared::enumerator;
use crate::faults::TypeFault;
use crate::roles::Role;
use crate::scopes::{Mark, Scopes};
use c_tree::{Arena, Part, Token, Tree, Trees};
use std::alloc::AllocError;
use type_rules::scopes_stay;
use type_values::Ty;
use typed_unit::Table;

/// Ends the scope of a list of parameters. What those of the function that is defined declare is kept for its body.
fn leave_params<'a>(scopes: &mut Scopes<'a>, role: Role<'a>, mark: Mark) -> Result<(), AllocError>
    ensures { IfOk result (λ _. (v : held.Scopes) → IsMark mark v → Stays (deeper v) (scopes_of scopes.old) → scopes_of scopes.new ≡ left_params (role_of role.entry) v (scopes_of scopes.old)) }
{
    match role {
        Role::Formals => {
            scopes.leave_formals(mark)?;
            Ok(())
        }
        _ => {
            scopes.leave(mark);
            Ok(())
        }
    }
}

/// Types a list of parameters. What they declare is in force up to its end.
#[cycle(typing)]
fn type_params<'a>(
    arena: &'a Arena,
    scopes: &mut Scopes<'a>,
    role: Role<'a>,
    params: &Trees<'a>,
    table: &mut Table<'a>,
) -> Result<Ty<'a>, TypeFault>
    ensures gives { let v = scopes_of scopes.old in Gives result (and_then (typed_each (deeper v) Plain (nodes_of params.now)) (λ _. Ok Void)) }
    ensures scopes { IfOk result (λ _. let v = scopes_of scopes.old in scopes_of scopes.new ≡ left_params (role_of role.entry) v (scoped_each (deeper v) Plain (nodes_of params.now))) }
    ensures table { IfOk result (λ _. let v = scopes_of scopes.old in table_of table.new ≡ filled_each (deeper v) Plain (nodes_of params.now) (table_of table.old)) }
{
    scopes_stay();
    let mark = scopes.enter()?;
    type_each(arena, scopes, Role::Plain, params, table)?;
    leave_params(scopes, role, mark)?;
    Ok(Ty::Void)
}

/// Types an enumerator, which is in force from its end on (6.5.2.2).
#[cycle(typing)]
fn type_enumerator<'a>(
    arena: &'a Arena,
    scopes: &mut Scopes<'a>,
    name: &Token,
    value: Option<&Tree<'a>>,
    table: &mut Table<'a>,
) -> Result<Ty<'a>, TypeFault>
    ensures gives { let v = scopes_of scopes.old in Gives result (and_then (typed_maybe v Plain (option_node value.entry)) (λ _. name_row (scoped_maybe v Plain (option_node value.entry)) name.now.place (declared.enumerator (scoped_maybe v Plain (option_node value.entry)) name.now))) }
    ensures scopes { IfOk result (λ _. let v = scopes_of scopes.old in scopes_of scopes.new ≡ with_name (scoped_maybe v Plain (option_node value.entry)) (declared.enumerator (scoped_maybe v Plain (option_node value.entry)) name.now)) }
    ensures table { IfOk result (λ _. let v = scopes_of scopes.old in table_of table.new ≡ filled_maybe v Plain (option_node value.entry) (table_of table.old)) }
{
    type_maybe(arena, scopes, Role::Plain, value, table)?;
    let entry = enumerator(scopes, name);
    declare_name(scopes, name.place, entry)
}

/// Types a part.
#[cycle(typing)]
pub(crate) fn type_part<'a>(
    arena: &'a Arena,
    scopes: &mut Scopes<'a>,
    role: Role<'a>,
    kind: &Part<'a>,
    table: &mut Table<'a>,
) -> Result<Ty<'a>, TypeFault>
    ensures gives { (p : Place) → Gives result (typed_part (scopes_of scopes.old) (role_of role.entry) p (part_shape kind.now)) }
    ensures scopes { IfOk result (λ _. scopes_of scopes.new ≡ closed (scopes_of scopes.old) (role_of role.entry) (nodes.Part (part_shape kind.now)) (within_part (scopes_of scopes.old) (role_of role.entry) (part_shape kind.now))) }
    ensures table { IfOk result (λ _. table_of table.new ≡ filled_part (scopes_of scopes.old) (role_of role.entry) (part_shape kind.now) (table_of table.old)) }
{
    match kind {
        Part::ArrayBound { bound, .. } => {
            type_maybe(arena, scopes, Role::Plain, *bound, table)?;
            Ok(Ty::Void)
        }
        Part::Params { params, .. } => type_params(arena, scopes, role, params, table),
        Part::Enumerator { name, value } => type_enumerator(arena, scopes, name, *value, table),
        Part::IndexDesignator { index } => {
            type_tree(arena, scopes, Role::Plain, index, table)?;
            Ok(Ty::Void)
        }
        Part::SpecWord { .. } | Part::VoidParams | Part::MemberDesignator { .. } => Ok(Ty::Void),
    }
}
