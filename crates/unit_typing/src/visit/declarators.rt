//! The visit of declarators, and what they declare (ISO 9899:1990, 6.5.4).

ghost use Rattle.std.specs.Prelude.{◌≡◌, None, cond, IfOk};
ghost use Rattle.std.specs.Option.{option_map};
ghost use Rattle.c_tree.specs.Views.{declarator_shape};
ghost use Rattle.type_rules.specs.Moves.{behind_declarator};
ghost use Rattle.type_rules.specs.Rows.{declarator_row};
ghost use Rattle.type_rules.specs.Rows as lines;
ghost use Rattle.type_rules.specs.Scopes as held;
ghost use Rattle.type_rules.specs.Ways.ScopesByCase.{within_declarator};
ghost use Rattle.type_rules.specs.Ways.TablesByCase.{filled_declarator};
ghost use Rattle.type_rules.specs.Ways.TypesByCase.{typed_declarator};
ghost use Rattle.typed_unit.specs.Tables.{table_of};
ghost use Rattle.type_values.specs.Vars.{cvar_of};
ghost use Rattle.unit_typing.specs.Faults.{Gives};
ghost use Rattle.unit_typing.specs.Keeping.{with_declarator};
ghost use Rattle.unit_typing.specs.Roles.{role_of};
ghost use Rattle.unit_typing.specs.Scopes.{scopes_of};
ghost use Rattle.unit_typing.specs.Views.{member_entry, name_entry};

use super::keeping::keep;
use super::{type_beside, type_each, type_tree};
use crate::checks::{check_member, check_name, declares, declares_member};
use crate::declarators::name_of_shape;
use crate::faults::TypeFault;
use crate::members::MemberEntry;
use crate::names::NameEntry;
use crate::operands::is_object;
use crate::roles::Role;
use crate::scopes::Scopes;
use c_tree::{Arena, Declarator, Place};
use type_values::{Ty, Var};
use typed_unit::Table;

/// The place of a declared name.
fn name_place(place: Place, kind: &Declarator) -> Place
    ensures { result ≡ lines.name_place place (declarator_shape kind.now) }
{
    match name_of_shape(kind) {
        Some(name) => name.place,
        None => place,
    }
}

/// The variable that a declared name stands for; a function is none.
fn object_of(entry: NameEntry) -> Option<Var>
    ensures { option_map cvar_of result ≡ cond (lines.is_object (name_entry entry.entry)) (name_entry entry.entry).var None }
{
    if is_object(entry) { entry.var } else { None }
}

/// Puts a name in force, unless it may not be declared here. `place` is that of the name.
pub(crate) fn declare_name<'a>(
    scopes: &mut Scopes<'a>,
    place: Place,
    entry: NameEntry<'a>,
) -> Result<Ty<'a>, TypeFault>
    ensures gives { Gives result (lines.name_row (scopes_of scopes.old) place (name_entry entry.entry)) }
    ensures scopes { IfOk result (λ _. scopes_of scopes.new ≡ held.with_name (scopes_of scopes.old) (name_entry entry.entry)) }
{
    let ty = check_name(scopes, place, entry)?;
    scopes.add_name(entry)?;
    Ok(ty)
}

/// Puts a member in force, unless its structure or union has one of the name.
fn declare_member<'a>(scopes: &mut Scopes<'a>, member: MemberEntry<'a>) -> Result<Ty<'a>, TypeFault>
    ensures gives { Gives result (lines.member_row (scopes_of scopes.old) (member_entry member.entry)) }
    ensures scopes { IfOk result (λ _. scopes_of scopes.new ≡ held.with_member (scopes_of scopes.old) (member_entry member.entry)) }
{
    let ty = check_member(scopes, member)?;
    scopes.add_member(member)?;
    Ok(ty)
}

/// Declares what a declarator of this role declares, once its parts are visited: a name, a member, or nothing.
fn declare<'a>(
    arena: &'a Arena,
    scopes: &mut Scopes<'a>,
    role: Role<'a>,
    number: u32,
    place: Place,
    kind: &Declarator<'a>,
    table: &mut Table<'a>,
) -> Result<Ty<'a>, TypeFault>
    ensures gives { Gives result (declarator_row (scopes_of scopes.old) (role_of role.entry) place (declarator_shape kind.now)) }
    ensures scopes { IfOk result (λ _. scopes_of scopes.new ≡ behind_declarator (role_of role.entry) (declarator_shape kind.now) (scopes_of scopes.old)) }
    ensures table { IfOk result (λ _. table_of table.new ≡ with_declarator (scopes_of scopes.old) (role_of role.entry) number (declarator_shape kind.now) (declarator_row (scopes_of scopes.old) (role_of role.entry) place (declarator_shape kind.now)) (table_of table.old)) }
{
    match declares(arena, scopes, role, kind)? {
        Some(entry) => {
            let ty = declare_name(scopes, name_place(place, kind), entry)?;
            keep(table, true, number, object_of(entry), ty)?;
            Ok(ty)
        }
        None => match declares_member(arena, role, kind)? {
            Some(member) => declare_member(scopes, member),
            None => Ok(Ty::Void),
        },
    }
}

/// Types a declarator, of which `number` is the number of the node and `place` its first token. A name or a member is in force
/// from its end on.
#[cycle(typing)]
pub(crate) fn type_declarator<'a>(
    arena: &'a Arena,
    scopes: &mut Scopes<'a>,
    role: Role<'a>,
    number: u32,
    place: Place,
    kind: &Declarator<'a>,
    table: &mut Table<'a>,
) -> Result<Ty<'a>, TypeFault>
    ensures gives { Gives result (typed_declarator (scopes_of scopes.old) (role_of role.entry) place (declarator_shape kind.now)) }
    ensures scopes { IfOk result (λ _. scopes_of scopes.new ≡ behind_declarator (role_of role.entry) (declarator_shape kind.now) (within_declarator (scopes_of scopes.old) (role_of role.entry) (declarator_shape kind.now))) }
    ensures table { IfOk result (λ _. table_of table.new ≡ with_declarator (within_declarator (scopes_of scopes.old) (role_of role.entry) (declarator_shape kind.now)) (role_of role.entry) number (declarator_shape kind.now) (typed_declarator (scopes_of scopes.old) (role_of role.entry) place (declarator_shape kind.now)) (filled_declarator (scopes_of scopes.old) (role_of role.entry) (declarator_shape kind.now) (table_of table.old))) }
{
    match kind {
        Declarator::Named { suffixes, .. } => {
            type_beside(arena, scopes, role.inner(), suffixes, table)?;
            declare(arena, scopes, role, number, place, kind, table)
        }
        Declarator::Nested {
            inner,
            suffixes,
            ..
        } => {
            type_tree(arena, scopes, role.toward(inner), inner, table)?;
            type_beside(arena, scopes, role.beside(inner), suffixes, table)?;
            declare(arena, scopes, role, number, place, kind, table)
        }
        Declarator::Unnamed { suffixes, .. } => {
            type_each(arena, scopes, Role::Plain, suffixes, table)?;
            declare(arena, scopes, role, number, place, kind, table)
        }
    }
}
