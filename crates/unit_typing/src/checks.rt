//! Which names and members may be declared (ISO 9899:1990, 6.5).

ghost use Rattle.std.specs.Prelude.{◌≡◌, map, IfOk};
ghost use Rattle.std.specs.Option.{option_map};
ghost use Rattle.c_tree.specs.Views.{declarator_shape, node_of, nodes_of};
ghost use Rattle.type_rules.specs.Moves.{declares, declares_member, number_in, inner_members};
ghost use Rattle.type_rules.specs.Rows.{first_clash, name_row, member_row};
ghost use Rattle.type_values.specs.Types.{ctype_of};
ghost use Rattle.unit_typing.specs.Faults.{Gives, Finds};
ghost use Rattle.unit_typing.specs.Roles.{role_of};
ghost use Rattle.unit_typing.specs.Scopes.{scopes_of};
ghost use Rattle.unit_typing.specs.Views.{name_entry, member_entry};

use crate::declarators::{around_shape, name_of_shape};
use crate::declared::{a_member, clashes, declared, formal, member_clashes};
use crate::faults::TypeFault;
use crate::members::MemberEntry;
use crate::names::NameEntry;
use crate::roles::Role;
use crate::scopes::Scopes;
use c_tree::{Arena, Declarator, Place};
use std::alloc::AllocError;
use type_values::Ty;

/// The type of a name that is declared, unless it may not be declared here.
pub fn check_name<'a>(
    scopes: &Scopes<'a>,
    place: Place,
    entry: NameEntry<'a>,
) -> Result<Ty<'a>, TypeFault>
    ensures { Gives result (name_row (scopes_of scopes.now) place (name_entry entry.entry)) }
{
    if clashes(scopes, entry) {
        return Err(TypeFault::Redeclared {
            place,
            name: entry.name,
        });
    }
    Ok(entry.ty)
}

/// The type of a member that is declared, unless its structure or union has one of the name.
pub fn check_member<'a>(scopes: &Scopes<'a>, member: MemberEntry<'a>) -> Result<Ty<'a>, TypeFault>
    ensures { Gives result (member_row (scopes_of scopes.now) (member_entry member.entry)) }
{
    if member_clashes(scopes, member) {
        return Err(TypeFault::Redeclared {
            place: member.place,
            name: member.name,
        });
    }
    Ok(member.ty)
}

/// Refuses the first of these members whose name the structure or union has already.
pub fn check_members(scopes: &Scopes, members: &[MemberEntry]) -> Result<(), TypeFault>
    ensures { Finds result (first_clash (scopes_of scopes.now) (map member_entry members.now)) }
{
    for member in members {
        if member_clashes(scopes, *member) {
            return Err(TypeFault::Redeclared {
                place: member.place,
                name: member.name,
            });
        }
    }
    Ok(())
}

/// The members of a member without a name, as members of the outer structure or union. None where it is none itself.
pub fn inner_members<'a>(
    scopes: &Scopes<'a>,
    owner: u32,
    ty: Ty<'a>,
) -> Result<Vec<MemberEntry<'a>>, AllocError>
    ensures { IfOk result (λ found. map member_entry found.items ≡ inner_members (scopes_of scopes.now) owner (ctype_of ty.entry)) }
{
    match ty {
        Ty::Struct(number) => scopes.given_to(owner, number),
        Ty::Union(number) => scopes.given_to(owner, number),
        _ => Ok(scopes.no_members()),
    }
}

/// The name that a declarator of this role declares, under the scopes behind its parts.
pub fn declares<'a>(
    arena: &'a Arena,
    scopes: &Scopes<'a>,
    role: Role<'a>,
    kind: &Declarator<'a>,
) -> Result<Option<NameEntry<'a>>, AllocError>
    ensures { IfOk result (λ found. option_map name_entry found ≡ declares (scopes_of scopes.now) (role_of role.entry) (declarator_shape kind.now)) }
{
    match role {
        Role::Declares { storage, ty } | Role::Defines { storage, ty } => match name_of_shape(
            kind,
        ) {
            None => Ok(None),
            Some(name) => {
                let ty = around_shape(arena, kind, ty)?;
                Ok(Some(declared(scopes, storage, ty, name)))
            }
        },
        Role::Formal { ty } => match name_of_shape(kind) {
            None => Ok(None),
            Some(name) => {
                let ty = around_shape(arena, kind, ty)?;
                let entry = formal(arena, scopes, ty, name)?;
                Ok(Some(entry))
            }
        },
        _ => Ok(None),
    }
}

/// The member that a declarator of this role declares.
pub fn declares_member<'a>(
    arena: &'a Arena,
    role: Role<'a>,
    kind: &Declarator<'a>,
) -> Result<Option<MemberEntry<'a>>, AllocError>
    ensures { IfOk result (λ found. option_map member_entry found ≡ declares_member (role_of role.entry) (declarator_shape kind.now)) }
{
    match role {
        Role::Member { owner, ty } => match name_of_shape(kind) {
            None => Ok(None),
            Some(name) => {
                let ty = around_shape(arena, kind, ty)?;
                Ok(Some(a_member(owner, ty, name)))
            }
        },
        _ => Ok(None),
    }
}
