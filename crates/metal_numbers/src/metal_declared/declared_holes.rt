//! The holes that a text declares, in its order.

ghost use Rattle.std.specs.Prelude.{◌≡◌, ◌++◌, ◌∷◌, [], IfOk, map, filter_map};
ghost use Rattle.c_tree.specs.Symbol.{symbol_of, symbols_of};
ghost use Rattle.metal_grammar.specs.Holes as grammar;
ghost use Rattle.metal_grammar.specs.Rules as rules;
ghost use Rattle.metal_grammar.specs.Ways.Steps.{keyword_in};
ghost use Rattle.metal_written.specs.Kinds.{kind_type};
ghost use Rattle.metal_written.specs.Written.{type_view, declaration_view, content_view, clause_views};
ghost use Rattle.metal_tree.specs.Views.{hole_type_view};
ghost use Rattle.metal_numbers.specs.MetalDeclared.DeclaredHoles.{declared_views, hole_named, hole_types_view};

use bumpalo::collections::into_bump_slice;
use c_tree::{Arena, Keyword, Token, TokenKind};
use metal_tree::{BaseType, HoleType, NamedType};
use metal_written::{Clause, Content, Declaration, HoleKind, WrittenType, kind_of_hole};
use mx_base::Names;
use std::alloc::AllocError;

/// A name that is declared as a hole.
#[derive(Clone, Copy)]
pub struct DeclaredHole<'a> {
    pub name: u32,
    pub of: HoleType<'a>,
    /// Whether it is a state variable.
    pub is_state: bool,
}

/// Adds the keyword that a token is.
fn add_keyword<'a>(keywords: &mut Vec<Keyword, &'a Arena>, word: &Token) -> Result<(), AllocError>
    ensures { IfOk result (λ _. keywords.new.items ≡ keywords.old.items ++ filter_map keyword_in (symbol_of word.now ∷ [])) }
{
    match word.kind {
        TokenKind::Keyword(keyword) => keywords.push(keyword)?,
        _ => {}
    }
    Ok(())
}

/// The keywords that these tokens are.
#[tactic(auto, using(crate::proofs::MetalDeclared::InHoles::keywords))]
fn keywords_of<'a>(arena: &'a Arena, words: &[Token]) -> Result<&'a [Keyword], AllocError>
    ensures { IfOk result (λ found. found.now ≡ filter_map keyword_in (symbols_of words.now)) }
{
    let mut keywords = Vec::new(arena);
    for word in words {
        add_keyword(&mut keywords, word)?;
    }
    Ok(into_bump_slice(keywords))
}

/// What a hole of a kind takes.
fn kind_type<'a>(kind: HoleKind) -> HoleType<'a>
    ensures { hole_type_view result ≡ kind_type kind }
{
    match kind {
        HoleKind::AnyExpr => HoleType::AnyExpr,
        HoleKind::AnyScalar => HoleType::AnyScalar,
        HoleKind::AnyPointer => HoleType::AnyPointer,
        HoleKind::AnyArguments => HoleType::AnyArguments,
        HoleKind::AnyFnCall => HoleType::AnyFnCall,
    }
}

/// What a hole that is declared with this type takes, if it is a type of holes.
#[tactic(auto, using(crate::proofs::MetalDeclared::InHoles::starred_pointers))]
fn hole_type<'a>(
    arena: &'a Arena,
    names: &Names,
    of: WrittenType<'a>,
) -> Result<Option<HoleType<'a>>, AllocError>
    ensures { IfOk result (λ found. hole_types_view found ≡ grammar.hole_type names.now (type_view of.entry)) }
{
    match of {
        WrittenType::Kind { name } => match kind_of_hole(names, name) {
            Some(kind) => Ok(Some(kind_type(kind))),
            None => Ok(None),
        },
        WrittenType::Basic { words, stars } => {
            let base = BaseType::Basic {
                words: keywords_of(arena, words)?,
            };
            Ok(Some(HoleType::Named(NamedType { base, stars })))
        }
        WrittenType::Tag { which, tag, stars } => Ok(Some(HoleType::Named(NamedType {
            base: BaseType::Tag { which, tag },
            stars,
        }))),
    }
}

/// Adds holes of these names.
#[tactic(auto, using(crate::proofs::MetalDeclared::InHoles::additions))]
fn add_names<'a>(
    holes: &mut Vec<DeclaredHole<'a>, &'a Arena>,
    names: &[u32],
    of: HoleType<'a>,
    is_state: bool,
) -> Result<(), AllocError>
    ensures { IfOk result (λ _. declared_views holes.new.items ≡ declared_views holes.old.items ++ map (hole_named (hole_type_view of.entry) is_state) names.now) }
{
    for name in names {
        holes.push(DeclaredHole {
            name: *name,
            of,
            is_state,
        })?;
    }
    Ok(())
}

/// Adds the holes of a declaration.
#[tactic(auto, using(crate::proofs::MetalDeclared::InHoles::additions))]
fn add_declared<'a>(
    arena: &'a Arena,
    names: &Names,
    holes: &mut Vec<DeclaredHole<'a>, &'a Arena>,
    declaration: Declaration<'a>,
) -> Result<(), AllocError>
    ensures { IfOk result (λ _. declared_views holes.new.items ≡ declared_views holes.old.items ++ grammar.declared_holes names.now (declaration_view declaration.entry)) }
{
    match hole_type(arena, names, declaration.of)? {
        None => Ok(()),
        Some(of) => add_names(holes, declaration.names, of, declaration.state.is_some()),
    }
}

/// Adds the holes of a clause.
#[tactic(auto, using(crate::proofs::MetalDeclared::InHoles::additions))]
fn add_holes_of<'a>(
    arena: &'a Arena,
    names: &Names,
    holes: &mut Vec<DeclaredHole<'a>, &'a Arena>,
    content: Content<'a>,
) -> Result<(), AllocError>
    ensures { IfOk result (λ _. declared_views holes.new.items ≡ declared_views holes.old.items ++ rules.holes_of_content names.now (content_view content.entry)) }
{
    match content {
        Content::Declares(declaration) => add_declared(arena, names, holes, declaration),
        Content::Nothing => Ok(()),
        Content::Rules(_) => Ok(()),
    }
}

/// The holes of a text, in its order.
#[tactic(auto, using(crate::proofs::MetalDeclared::InHoles::additions))]
pub fn holes_of<'a>(
    arena: &'a Arena,
    names: &Names,
    clauses: &[Clause<'a>],
) -> Result<&'a [DeclaredHole<'a>], AllocError>
    ensures { IfOk result (λ holes. declared_views holes.now ≡ rules.holes_of names.now (clause_views clauses.now)) }
{
    let mut holes = Vec::new(arena);
    for clause in clauses {
        add_holes_of(arena, names, &mut holes, clause.content)?;
    }
    Ok(into_bump_slice(holes))
}
