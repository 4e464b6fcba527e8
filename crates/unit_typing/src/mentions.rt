//! Mentions of tags, and what they declare (ISO 9899:1990, 6.5.2.1 to 6.5.2.3).

ghost use Rattle.std.specs.Prelude.{◌≡◌, IfOk};
ghost use Rattle.std.specs.Option.{option_map};
ghost use Rattle.c_tree.specs.Views.{maybe_token};
ghost use Rattle.type_rules.specs.Tags.{sort_of, aggregate, is_plain, has_body, is_enum, same_sort, is_meant, meant, tag_number, body_number, with_struct, a_tag, mentioned, body_opened, tag_clashes, tag_fault, body_fault};
ghost use Rattle.type_values.specs.Types.{ctype_of};
ghost use Rattle.unit_typing.specs.Faults.{Finds};
ghost use Rattle.unit_typing.specs.Mentions.{mention_of};
ghost use Rattle.unit_typing.specs.Scopes.{scopes_of};
ghost use Rattle.unit_typing.specs.Views.{tag_sort, tag_entry};

use crate::faults::TypeFault;
use crate::scopes::Scopes;
use crate::tags::{Sort, TagEntry};
use c_tree::{StructOrUnion, Token};
use std::alloc::AllocError;
use type_values::Ty;

/// How a tag is mentioned.
#[derive(Clone, Copy)]
pub enum Mention {
    /// With other things.
    Plainly,
    /// As all there is of a declaration.
    Alone,
    /// With a body.
    WithBody,
}

/// What the word of a specifier makes its tag.
pub fn sort_of(which: StructOrUnion) -> Sort
    ensures { tag_sort result ≡ sort_of which }
{
    match which {
        StructOrUnion::Struct => Sort::Structs,
        StructOrUnion::Union => Sort::Unions,
    }
}

/// The structure or union of a number.
pub fn aggregate<'a>(which: StructOrUnion, number: u32) -> Ty<'a>
    ensures { ctype_of result ≡ aggregate which number }
{
    match which {
        StructOrUnion::Struct => Ty::Struct(number),
        StructOrUnion::Union => Ty::Union(number),
    }
}

fn is_plain(how: Mention) -> bool
    ensures { result ≡ is_plain (mention_of how) }
{
    match how {
        Mention::Plainly => true,
        Mention::Alone | Mention::WithBody => false,
    }
}

fn has_body(how: Mention) -> bool
    ensures { result ≡ has_body (mention_of how) }
{
    match how {
        Mention::WithBody => true,
        Mention::Plainly | Mention::Alone => false,
    }
}

fn is_enum(sort: Sort) -> bool
    ensures { result ≡ is_enum (tag_sort sort) }
{
    match sort {
        Sort::Enums => true,
        Sort::Structs | Sort::Unions => false,
    }
}

fn same_sort(left: Sort, right: Sort) -> bool
    ensures { result ≡ same_sort (tag_sort left) (tag_sort right) }
{
    match left {
        Sort::Structs => matches!(right, Sort::Structs),
        Sort::Unions => matches!(right, Sort::Unions),
        Sort::Enums => matches!(right, Sort::Enums),
    }
}

/// Whether a visible tag is meant: it is of the sort, and in this scope if the mention has a body or stands alone.
fn is_meant(scopes: &Scopes, how: Mention, sort: Sort, tag: TagEntry) -> bool
    ensures { result ≡ is_meant (scopes_of scopes.now) (mention_of how) (tag_sort sort) (tag_entry tag) }
{
    let here = tag.depth == scopes.depth();
    same_sort(tag.sort, sort) && (is_plain(how) || is_enum(sort) && !has_body(how) || here)
}

/// The visible tag that is meant, if it is one.
fn meant(scopes: &Scopes, how: Mention, sort: Sort, name: u32) -> Option<TagEntry>
    ensures { option_map tag_entry result ≡ meant (scopes_of scopes.now) (mention_of how) (tag_sort sort) name }
{
    match scopes.latest_tag(name) {
        None => None,
        Some(tag) => {
            if is_meant(scopes, how, sort, tag) {
                Some(tag)
            } else {
                None
            }
        }
    }
}

/// The number of the structure or union that is mentioned; a new one has the next number.
pub fn tag_number(scopes: &Scopes, how: Mention, sort: Sort, name: u32) -> u32
    ensures { result ≡ tag_number (scopes_of scopes.now) (mention_of how) (tag_sort sort) name }
{
    match meant(scopes, how, sort, name) {
        None => scopes.next_number(),
        Some(tag) => tag.number,
    }
}

/// The number of the structure or union whose body begins.
pub fn body_number(scopes: &Scopes, sort: Sort, tag: Option<&Token>) -> u32
    ensures { result ≡ body_number (scopes_of scopes.now) (tag_sort sort) (maybe_token tag.entry) }
{
    match tag {
        None => scopes.next_number(),
        Some(tag) => tag_number(scopes, Mention::WithBody, sort, tag.name),
    }
}

// One structure or union more, unless it is an enumeration.
fn add_struct(scopes: &mut Scopes, sort: Sort, tag: Option<u32>) -> Result<(), AllocError>
    ensures { IfOk result (λ _. scopes_of scopes.new ≡ with_struct (scopes_of scopes.old) (tag_sort sort) tag) }
{
    if is_enum(sort) {
        return Ok(());
    }
    scopes.add_struct(tag)
}

/// A tag of this scope.
fn a_tag(scopes: &Scopes, how: Mention, sort: Sort, name: u32, number: u32) -> TagEntry
    ensures { tag_entry result ≡ a_tag (scopes_of scopes.now) (mention_of how) (tag_sort sort) name number }
{
    TagEntry {
        name,
        depth: scopes.depth(),
        sort,
        number,
        body: has_body(how),
    }
}

/// Declares what a mention of a tag declares: nothing where a visible tag is meant, unless it gives that a body.
pub fn declare_tag(
    scopes: &mut Scopes,
    how: Mention,
    sort: Sort,
    name: u32,
) -> Result<(), AllocError>
    ensures { IfOk result (λ _. scopes_of scopes.new ≡ mentioned (scopes_of scopes.old) (mention_of how) (tag_sort sort) name) }
{
    match meant(scopes, how, sort, name) {
        None => {
            let tag = a_tag(scopes, how, sort, name, scopes.next_number());
            scopes.add_tag(tag)?;
            add_struct(scopes, sort, Some(name))
        }
        Some(meant) => {
            if has_body(how) {
                let tag = a_tag(scopes, how, sort, name, meant.number);
                scopes.add_tag(tag)?;
            }
            Ok(())
        }
    }
}

/// Declares what the `{` of a body declares.
pub fn open_body(scopes: &mut Scopes, sort: Sort, tag: Option<&Token>) -> Result<(), AllocError>
    ensures { IfOk result (λ _. scopes_of scopes.new ≡ body_opened (scopes_of scopes.old) (tag_sort sort) (maybe_token tag.entry)) }
{
    match tag {
        None => add_struct(scopes, sort, None),
        Some(tag) => declare_tag(scopes, Mention::WithBody, sort, tag.name),
    }
}

/// Whether a tag may not be mentioned so here: in one scope it is of one sort, and has one body.
fn tag_clashes(scopes: &Scopes, how: Mention, sort: Sort, name: u32) -> bool
    ensures { result ≡ tag_clashes (scopes_of scopes.now) (mention_of how) (tag_sort sort) name }
{
    match scopes.latest_tag(name) {
        None => false,
        Some(tag) => {
            let here = tag.depth == scopes.depth();
            here && (!same_sort(tag.sort, sort) || tag.body && has_body(how))
        }
    }
}

/// Refuses a mention of a tag that clashes.
pub fn check_tag(scopes: &Scopes, how: Mention, sort: Sort, tag: &Token) -> Result<(), TypeFault>
    ensures { Finds result (tag_fault (scopes_of scopes.now) (mention_of how) (tag_sort sort) tag.now) }
{
    if tag_clashes(scopes, how, sort, tag.name) {
        return Err(TypeFault::Redeclared {
            place: tag.place,
            name: tag.name,
        });
    }
    Ok(())
}

/// Refuses a body whose tag clashes.
pub fn check_body(scopes: &Scopes, sort: Sort, tag: Option<&Token>) -> Result<(), TypeFault>
    ensures { Finds result (body_fault (scopes_of scopes.now) (tag_sort sort) (maybe_token tag.entry)) }
{
    match tag {
        None => Ok(()),
        Some(tag) => check_tag(scopes, Mention::WithBody, sort, tag),
    }
}
