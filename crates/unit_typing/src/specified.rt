//! The types that specifiers name (ISO 9899:1990, 6.5.2).

ghost use Rattle.std.specs.Prelude.{◌≡◌, [], ◌++◌, IfOk, OnOk};
ghost use Rattle.std.specs.Option.{option_map};
ghost use Rattle.c_tree.specs.Views.{node_of, nodes_of, specifier_shape};
ghost use Rattle.type_rules.specs.Options.{if_there};
ghost use Rattle.type_rules.specs.Specified.{basic_type, keyword_in, one_type_word, type_words, named_type, tagged_type, item_type, other_type, items_type, specified_type};
ghost use Rattle.type_values.specs.Types.{ctype_of};
ghost use Rattle.unit_typing.specs.Scopes.{scopes_of};

use crate::mentions::{Mention, aggregate, body_number, sort_of, tag_number};
use crate::scopes::Scopes;
use crate::storage::{keyword_in, keyword_of};
use bumpalo::collections::into_bump_slice;
use c_expr::is_type_word;
use c_tree::{Arena, Keyword, Kind, Part, Specifier, Token, Tree, Trees};
use std::alloc::AllocError;
use type_values::{Arithmetic, Basic, Ty};

/// The basic type that is written with these words.
fn basic_type<'a>(words: &[Keyword]) -> Ty<'a>
    ensures { ctype_of result ≡ basic_type words.now }
{
    match type_values::basic_type(words) {
        Basic::Void => Ty::Void,
        Basic::Arith(kind) => Ty::Arith(kind),
        Basic::VaList => Ty::VaList,
    }
}

/// Adds the word of a basic type that a specifier is.
fn add_type_word<'a>(words: &mut Vec<Keyword, &'a Arena>, item: &Tree) -> Result<(), AllocError>
    ensures { OnOk result (words.new.items ≡ words.old.items ++ if_there (keyword_in (node_of item.now)) [] one_type_word) }
{
    match keyword_in(item) {
        Some(word) => {
            if is_type_word(word) {
                words.push(word)?;
            }
            Ok(())
        }
        None => Ok(()),
    }
}

/// The words of a basic type among the specifiers.
#[tactic(auto, using(crate::proofs::Steps::steps))]
fn type_words<'a>(arena: &'a Arena, items: &Trees) -> Result<&'a [Keyword], AllocError>
    ensures { IfOk result (λ words. words.now ≡ type_words (nodes_of items.now)) }
{
    let mut words = Vec::new(arena);
    for item in items.all {
        add_type_word(&mut words, item)?;
    }
    Ok(into_bump_slice(words))
}

/// The type that a name is, where it is no keyword.
fn named_type<'a>(scopes: &Scopes<'a>, word: &Token) -> Option<Ty<'a>>
    ensures { option_map ctype_of result ≡ named_type (scopes_of scopes.now) word.now }
{
    match keyword_of(word.kind) {
        Some(_) => None,
        None => match scopes.latest(word.name) {
            Some(entry) => Some(entry.ty),
            None => None,
        },
    }
}

/// The type of a specifier of a structure, union or enumeration.
fn tagged_type<'a>(scopes: &Scopes<'a>, specifier: &Specifier) -> Option<Ty<'a>>
    ensures { option_map ctype_of result ≡ tagged_type (scopes_of scopes.now) (specifier_shape specifier.now) }
{
    match specifier {
        Specifier::StructTag { which, tag } => Some(aggregate(
            *which,
            tag_number(scopes, Mention::Plainly, sort_of(*which), tag.name),
        )),
        Specifier::StructBody { which, tag, .. } => {
            Some(aggregate(*which, body_number(scopes, sort_of(*which), *tag)))
        }
        Specifier::EnumTag { .. } | Specifier::EnumBody { .. } => Some(Ty::Arith(Arithmetic::Int)),
        _ => None,
    }
}

/// The type that a specifier is by itself.
fn item_type<'a>(scopes: &Scopes<'a>, item: &Tree) -> Option<Ty<'a>>
    ensures { option_map ctype_of result ≡ item_type (scopes_of scopes.now) (node_of item.now) }
{
    match &item.kind {
        Kind::Specifier(specifier) => tagged_type(scopes, specifier),
        Kind::Part(Part::SpecWord { word }) => named_type(scopes, word),
        _ => None,
    }
}

/// The first type that one of the specifiers is by itself.
#[tactic(auto, using(crate::proofs::Steps::steps))]
fn other_type<'a>(scopes: &Scopes<'a>, items: &Trees) -> Option<Ty<'a>>
    ensures { option_map ctype_of result ≡ other_type (scopes_of scopes.now) (nodes_of items.now) }
{
    for item in items.all {
        if let Some(ty) = item_type(scopes, item) {
            return Some(ty);
        }
    }
    None
}

/// The type of all specifiers, under the scopes before them.
fn items_type<'a>(
    arena: &'a Arena,
    scopes: &Scopes<'a>,
    items: &Trees,
) -> Result<Ty<'a>, AllocError>
    ensures { IfOk result (λ t. ctype_of t ≡ items_type (scopes_of scopes.now) (nodes_of items.now)) }
{
    match other_type(scopes, items) {
        Some(ty) => Ok(ty),
        None => {
            let words = type_words(arena, items)?;
            Ok(basic_type(words))
        }
    }
}

/// The type that specifiers name, under the scopes before them.
pub fn specified_type<'a>(
    arena: &'a Arena,
    scopes: &Scopes<'a>,
    specs: &Tree,
) -> Result<Ty<'a>, AllocError>
    ensures { IfOk result (λ t. ctype_of t ≡ specified_type (scopes_of scopes.now) (node_of specs.now)) }
{
    match &specs.kind {
        Kind::Specifier(Specifier::Specs { items }) => items_type(arena, scopes, items),
        _ => Ok(Ty::Void),
    }
}
