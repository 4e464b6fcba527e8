//! What declarations put in force (ISO 9899:1990, 6.1.2.2, 6.1.2.4, 6.5).

ghost use Rattle.std.specs.Prelude.{◌≡◌, cond, IfOk};
ghost use Rattle.std.specs.Option.{option_map};
ghost use Rattle.type_rules.specs.Declarators.{linked, at_file, variable, is_typedef, is_extern, declared, formal, enumerator, a_member, same_class, bars, clashes, member_clashes};
ghost use Rattle.type_rules.specs.Scopes.{Typedef, Variable};
ghost use Rattle.type_values.specs.Types.{ctype_of};
ghost use Rattle.type_values.specs.Vars.{cvar_of};
ghost use Rattle.unit_typing.specs.Scopes.{scopes_of};
ghost use Rattle.unit_typing.specs.Storage.{storage_seen};
ghost use Rattle.unit_typing.specs.Views.{class_of, name_entry, member_entry};

use crate::members::MemberEntry;
use crate::names::{Class, NameEntry};
use crate::scopes::Scopes;
use crate::storage::Storage;
use c_tree::{Arena, Token};
use std::alloc::AllocError;
use type_values::{Arithmetic, Ty, Var};

/// What `extern` names: the file-scope `static` of that name, where that is visible (6.1.2.2).
fn linked(scopes: &Scopes, name: u32) -> Var
    ensures { cvar_of result ≡ linked (scopes_of scopes.now) name }
{
    match scopes.latest(name) {
        None => Var::Extern { name },
        Some(entry) => match entry.var {
            Some(Var::FileStatic { file, name }) => Var::FileStatic { file, name },
            _ => Var::Extern { name },
        },
    }
}

fn at_file(scopes: &Scopes) -> bool
    ensures { result ≡ at_file (scopes_of scopes.now) }
{
    scopes.depth() == 0
}

/// The variable that is declared. A function in a block is `extern` by itself.
fn variable<'a>(scopes: &Scopes<'a>, storage: Storage, ty: Ty<'a>, name: &Token) -> Option<Var>
    ensures { option_map cvar_of result ≡ variable (scopes_of scopes.now) (storage_seen storage) (ctype_of ty.entry) name.now }
{
    let file = name.place.file;
    let token = name.place.token;
    match storage {
        Storage::Typedef => None,
        Storage::Extern => Some(linked(scopes, name.name)),
        Storage::Static => {
            if at_file(scopes) {
                Some(Var::FileStatic {
                    file,
                    name: name.name,
                })
            } else {
                Some(Var::LocalStatic {
                    file,
                    token,
                    name: name.name,
                })
            }
        }
        Storage::Unmarked => {
            if at_file(scopes) {
                Some(Var::Extern { name: name.name })
            } else if ty.is_function() {
                Some(linked(scopes, name.name))
            } else {
                Some(Var::Local {
                    file,
                    token,
                    name: name.name,
                })
            }
        }
    }
}

fn class_by(storage: Storage) -> Class
    ensures { class_of result ≡ cond (is_typedef (storage_seen storage)) Typedef Variable }
{
    match storage {
        Storage::Typedef => Class::Typedef,
        Storage::Unmarked | Storage::Extern | Storage::Static => Class::Variable,
    }
}

fn is_extern(storage: Storage) -> bool
    ensures { result ≡ is_extern (storage_seen storage) }
{
    match storage {
        Storage::Extern => true,
        Storage::Unmarked | Storage::Typedef | Storage::Static => false,
    }
}

/// What a declaration or a definition puts in force.
pub fn declared<'a>(
    scopes: &Scopes<'a>,
    storage: Storage,
    ty: Ty<'a>,
    name: &Token,
) -> NameEntry<'a>
    ensures { name_entry result ≡ declared (scopes_of scopes.now) (storage_seen storage) (ctype_of ty.entry) name.now }
{
    NameEntry {
        name: name.name,
        depth: scopes.depth(),
        class: class_by(storage),
        ty,
        var: variable(scopes, storage, ty, name),
        again: is_extern(storage) || ty.is_function(),
    }
}

/// What a parameter puts in force.
pub fn formal<'a>(
    arena: &'a Arena,
    scopes: &Scopes<'a>,
    ty: Ty<'a>,
    name: &Token,
) -> Result<NameEntry<'a>, AllocError>
    ensures { IfOk result (λ k. name_entry k ≡ formal (scopes_of scopes.now) (ctype_of ty.entry) name.now) }
{
    let ty = ty.adjusted(arena)?;
    Ok(NameEntry {
        name: name.name,
        depth: scopes.depth(),
        class: Class::Variable,
        ty,
        var: Some(Var::Param {
            file: name.place.file,
            token: name.place.token,
            name: name.name,
        }),
        again: false,
    })
}

/// What an enumerator puts in force. It has the type `int` (6.5.2.2).
pub fn enumerator<'a>(scopes: &Scopes<'a>, name: &Token) -> NameEntry<'a>
    ensures { name_entry result ≡ enumerator (scopes_of scopes.now) name.now }
{
    NameEntry {
        name: name.name,
        depth: scopes.depth(),
        class: Class::Enumerator,
        ty: Ty::Arith(Arithmetic::Int),
        var: None,
        again: false,
    }
}

/// A member of a structure or union.
pub fn a_member<'a>(owner: u32, ty: Ty<'a>, name: &Token) -> MemberEntry<'a>
    ensures { member_entry result ≡ a_member owner (ctype_of ty.entry) name.now }
{
    MemberEntry {
        owner,
        name: name.name,
        place: name.place,
        ty,
    }
}

fn same_class(left: Class, right: Class) -> bool
    ensures { result ≡ same_class (class_of left) (class_of right) }
{
    match left {
        Class::Variable => matches!(right, Class::Variable),
        Class::Typedef => matches!(right, Class::Typedef),
        Class::Enumerator => matches!(right, Class::Enumerator),
    }
}

/// Whether two declarations of a name in one scope, the earlier one first, don't go together (6.5).
fn bars(in_file: bool, old: NameEntry, new: NameEntry) -> bool
    ensures { result ≡ bars in_file (name_entry old.entry) (name_entry new.entry) }
{
    !same_class(old.class, new.class)
        || same_class(new.class, Class::Enumerator)
        || !in_file && same_class(new.class, Class::Variable) && !(old.again && new.again)
}

/// Whether a name may not be declared so here.
pub fn clashes(scopes: &Scopes, entry: NameEntry) -> bool
    ensures { result ≡ clashes (scopes_of scopes.now) (name_entry entry.entry) }
{
    match scopes.latest(entry.name) {
        None => false,
        Some(old) => old.depth == scopes.depth() && bars(at_file(scopes), old, entry),
    }
}

/// Whether its structure or union has a member of the name already.
pub fn member_clashes(scopes: &Scopes, member: MemberEntry) -> bool
    ensures { result ≡ member_clashes (scopes_of scopes.now) (member_entry member.entry) }
{
    scopes.member_of(member.owner, member.name).is_some()
}
