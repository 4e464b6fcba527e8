//! Types as they are written in a checker, beside types of a unit.

ghost use Rattle.std.specs.Prelude.{◌≡◌, Some};
ghost use Rattle.type_values.specs.BasicTypes.Basics.{basic_of};
ghost use Rattle.c_tree.specs.Forget.{view, list_view, maybe_view};
ghost use Rattle.c_tree.specs.Symbol.{symbol_of, symbols_of};
ghost use Rattle.c_tree.specs.Syntax.{Specifier as SpecifierSyntax, Specs};
ghost use Rattle.c_tree.specs.declared.punctuator.Punctuator.TheVariants as marks;
ghost use Rattle.c_grammar.specs.Symbols.{is_sign};
ghost use Rattle.std.specs.Option.{option_map};
ghost use Rattle.type_values.specs.Types.{ctype_of};
ghost use Rattle.tree_comparison.specs.MatchedTypes.Stars.{stars, behind_stars, tag_in, only_tag, declared_stars};
ghost use Rattle.hole_matching.specs.Holes.{named_type};
ghost use Rattle.hole_matching.specs.MatchedTypes.{Tagged, matched_type, without_tags, same_type};
ghost use Rattle.hole_matching.specs.Written.{around_written, written_specs};
ghost use Rattle.metal_tree.specs.Views.{base_type_view, named_type_view};
ghost use Rattle.objects.specs.Units.{facts_in};

use crate::matched_types::listed::words_of;
use crate::matched_types::types::same_tag;
use crate::tree_levels::spelling;
use c_tree::{
    Declarator, Kind, Punctuator, Specifier, StructOrUnion, Token, TokenKind, Tree, Trees,
};
use metal_tree::{BaseType, NamedType};
use type_values::{Basic, Ty, basic_type};
use typed_unit::TypedUnit;

// Whether a type is a basic one.
fn is_basic(unit: &TypedUnit, ty: &Ty, basic: Basic) -> bool
    ensures { result ≡ same_type (matched_type (facts_in unit.now) (ctype_of ty.now)) (without_tags (basic_of basic)) }
{
    match basic {
        Basic::Void => matches!(ty, Ty::Void),
        Basic::Arith(kind) => match ty {
            Ty::Arith(other) => *other as u8 == kind as u8,
            _ => false,
        },
        Basic::VaList => matches!(ty, Ty::VaList),
    }
}

// Whether a type is a structure or union of this tag.
fn is_tagged(unit: &TypedUnit, ty: &Ty, which: StructOrUnion, tag: u32) -> bool
    ensures { result ≡ same_type (matched_type (facts_in unit.now) (ctype_of ty.now)) (Tagged which (Some tag)) }
{
    match which {
        StructOrUnion::Struct => match ty {
            Ty::Struct(_) => same_tag(unit.tag(ty), Some(tag)),
            _ => false,
        },
        StructOrUnion::Union => match ty {
            Ty::Union(_) => same_tag(unit.tag(ty), Some(tag)),
            _ => false,
        },
    }
}

// Whether a type is that of these words.
fn is_base_type(unit: &TypedUnit, ty: &Ty, base: BaseType) -> bool
    ensures { result ≡ same_type (matched_type (facts_in unit.now) (ctype_of ty.now)) (named_type (base_type_view base.entry)) }
{
    match base {
        BaseType::Basic { words } => is_basic(unit, ty, basic_type(words)),
        BaseType::Tag { which, tag } => is_tagged(unit, ty, which, tag),
    }
}

// What a type points to, through so many stars.
fn behind_stars<'a>(ty: Ty<'a>, stars: usize) -> Option<Ty<'a>>
    ensures { option_map ctype_of result ≡ behind_stars stars (ctype_of ty.entry) }
{
    if stars == 0 {
        return Some(ty);
    }
    match ty {
        Ty::Pointer(to) => behind_stars(*to, stars - 1),
        _ => None,
    }
}

/// Whether a type of a unit is a written one.
pub fn is_named_type(unit: &TypedUnit, named: &NamedType, ty: &Ty) -> bool
    ensures { result ≡ same_type (named_type (named_type_view named.now)) (matched_type (facts_in unit.now) (ctype_of ty.now)) }
{
    match behind_stars(*ty, named.stars as usize) {
        Some(inner) => is_base_type(unit, &inner, named.base),
        None => false,
    }
}

// Whether a token is a star.
fn is_star(token: &Token) -> bool
    ensures { result ≡ is_sign marks.Star (symbol_of token.now) }
{
    match token.kind {
        TokenKind::Punct(mark) => mark as u8 == Punctuator::Star as u8,
        _ => false,
    }
}

// The number of stars among these.
fn stars(pointers: &[Token]) -> usize
    ensures { result ≡ stars (symbols_of pointers.now) }
{
    let mut count = 0;
    for token in pointers {
        count += usize::from(is_star(token));
    }
    count
}

// The structure or union that a specifier is, with its tag.
fn tag_in(item: &Tree) -> Option<(StructOrUnion, u32)>
    ensures { result ≡ tag_in (view item.now) }
{
    match &item.kind {
        Kind::Specifier(Specifier::StructTag { which, tag }) => Some((*which, spelling(tag))),
        _ => None,
    }
}

// The structure or union that these specifiers are by themselves.
fn only_tag(items: &Trees) -> Option<(StructOrUnion, u32)>
    ensures { result ≡ only_tag (list_view items.now) }
{
    let all = items.all;
    if all.len() == 1 {
        tag_in(&all[0])
    } else {
        None
    }
}

// Whether a type is what these specifiers say: a structure or union by its tag, or a basic type by its words.
fn is_listed(unit: &TypedUnit, ty: &Ty, items: &Trees) -> bool
    ensures { result ≡ same_type (matched_type (facts_in unit.now) (ctype_of ty.now)) (written_specs (SpecifierSyntax (Specs (list_view items.now)))) }
{
    match only_tag(items) {
        Some((which, tag)) => is_tagged(unit, ty, which, tag),
        None => is_basic(unit, ty, basic_type(words_of(items).as_slice())),
    }
}

// Whether a type is that of a type name without its declarator.
fn is_specified(unit: &TypedUnit, ty: &Ty, specs: &Tree) -> bool
    ensures { result ≡ same_type (matched_type (facts_in unit.now) (ctype_of ty.now)) (written_specs (view specs.now)) }
{
    match &specs.kind {
        Kind::Specifier(Specifier::Specs { items }) => is_listed(unit, ty, items),
        _ => is_basic(unit, ty, basic_type(&[])),
    }
}

/// Whether a type of a unit is that of a type name in a pattern.
pub fn is_written_type(unit: &TypedUnit, ty: &Ty, specs: &Tree, declarator: Option<&Tree>) -> bool
    ensures { result ≡ same_type (matched_type (facts_in unit.now) (ctype_of ty.now)) (around_written (maybe_view declarator.entry) (written_specs (view specs.now))) }
{
    match behind_stars(*ty, declared_stars(declarator)) {
        Some(inner) => is_specified(unit, &inner, specs),
        None => false,
    }
}

// The number of stars in an abstract declarator.
fn declared_stars(declarator: Option<&Tree>) -> usize
    ensures { result ≡ declared_stars (maybe_view declarator.entry) }
{
    match declarator {
        Some(tree) => match &tree.kind {
            Kind::Declarator(Declarator::Unnamed { pointers, .. }) => stars(pointers),
            _ => 0,
        },
        None => 0,
    }
}
