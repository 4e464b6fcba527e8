//! What declarators declare (ISO 9899:1990, 6.5.4).

ghost use Rattle.std.specs.Prelude.{◌≡◌, IfOk};
ghost use Rattle.c_tree.specs.Views.{node_of, nodes_of, maybe_token, option_node, declarator_shape};
ghost use Rattle.type_rules.specs.Declarators.{is_star, starred, suffix, suffixed, around, around_shape, around_maybe, name_of, name_of_shape, is_bare, is_bare_shape};
ghost use Rattle.type_values.specs.Types.{ctype_of};
ghost use Rattle.unit_typing.specs.Declarators.{no_tokens, no_nodes};

use c_tree::{Arena, Declarator, Kind, Part, Punctuator, Token, TokenKind, Tree, Trees};
use std::alloc::AllocError;
use type_values::Ty;

fn is_star(kind: TokenKind) -> bool
    ensures { result ≡ is_star kind }
{
    match kind {
        TokenKind::Punct(Punctuator::Star) => true,
        _ => false,
    }
}

/// A pointer for each star (6.5.4.1).
fn starred<'a>(arena: &'a Arena, pointers: &[Token], ty: Ty<'a>) -> Result<Ty<'a>, AllocError>
    ensures { IfOk result (λ t. ctype_of t ≡ starred pointers.now (ctype_of ty.entry)) }
{
    let mut found = ty;
    for word in pointers {
        if is_star(word.kind) {
            found = found.pointer_to(arena)?;
        }
    }
    Ok(found)
}

/// The type that a suffix makes of one.
fn suffix<'a>(arena: &'a Arena, tree: &Tree, ty: Ty<'a>) -> Result<Ty<'a>, AllocError>
    ensures { IfOk result (λ t. ctype_of t ≡ suffix (node_of tree.now) (ctype_of ty.entry)) }
{
    match &tree.kind {
        Kind::Part(Part::ArrayBound { .. }) => ty.array_of(arena),
        Kind::Part(Part::VoidParams) => ty.function_giving(arena),
        Kind::Part(Part::Params { .. }) => ty.function_giving(arena),
        _ => Ok(ty),
    }
}

/// Arrays and functions, the one beside the name outermost (6.5.4.2, 6.5.4.3).
#[tactic(auto, using(crate::proofs::Steps::steps))]
fn suffixed<'a>(arena: &'a Arena, suffixes: &Trees, ty: Ty<'a>) -> Result<Ty<'a>, AllocError>
    ensures { IfOk result (λ t. ctype_of t ≡ suffixed (nodes_of suffixes.now) (ctype_of ty.entry)) }
{
    let all = suffixes.all;
    let mut found = ty;
    let mut left = all.len();
    while left > 0 {
        left -= 1;
        found = suffix(arena, &all[left], found)?;
    }
    Ok(found)
}

/// The type that a declarator gives its name, from the type of its specifiers outward.
#[cycle(around)]
pub fn around<'a>(arena: &'a Arena, declarator: &Tree, ty: Ty<'a>) -> Result<Ty<'a>, AllocError>
    ensures { IfOk result (λ t. ctype_of t ≡ around (node_of declarator.now) (ctype_of ty.entry)) }
{
    match &declarator.kind {
        Kind::Declarator(kind) => around_shape(arena, kind, ty),
        _ => Ok(ty),
    }
}

/// The same, of what a declarator is.
#[cycle(around)]
pub fn around_shape<'a>(
    arena: &'a Arena,
    kind: &Declarator,
    ty: Ty<'a>,
) -> Result<Ty<'a>, AllocError>
    ensures { IfOk result (λ t. ctype_of t ≡ around_shape (declarator_shape kind.now) (ctype_of ty.entry)) }
{
    match kind {
        Declarator::Named {
            pointers,
            suffixes,
            ..
        } => {
            let starred = starred(arena, pointers, ty)?;
            suffixed(arena, suffixes, starred)
        }
        Declarator::Nested {
            pointers,
            inner,
            suffixes,
        } => {
            let starred = starred(arena, pointers, ty)?;
            let outer = suffixed(arena, suffixes, starred)?;
            around(arena, inner, outer)
        }
        Declarator::Unnamed { pointers, suffixes } => {
            let starred = starred(arena, pointers, ty)?;
            suffixed(arena, suffixes, starred)
        }
    }
}

/// The type around a declarator that may be missing.
pub fn around_maybe<'a>(
    arena: &'a Arena,
    declarator: Option<&Tree>,
    ty: Ty<'a>,
) -> Result<Ty<'a>, AllocError>
    ensures { IfOk result (λ t. ctype_of t ≡ around_maybe (option_node declarator.entry) (ctype_of ty.entry)) }
{
    match declarator {
        None => Ok(ty),
        Some(declarator) => around(arena, declarator, ty),
    }
}

/// The name that a declarator declares, if it isn't abstract.
#[cycle(name)]
pub fn name_of<'a>(declarator: &Tree<'a>) -> Option<&'a Token>
    ensures { maybe_token result ≡ name_of (node_of declarator.now) }
{
    match &declarator.kind {
        Kind::Declarator(kind) => name_of_shape(kind),
        _ => None,
    }
}

/// The same, of what a declarator is.
#[cycle(name)]
pub fn name_of_shape<'a>(kind: &Declarator<'a>) -> Option<&'a Token>
    ensures { maybe_token result ≡ name_of_shape (declarator_shape kind.now) }
{
    match kind {
        Declarator::Named { name, .. } => Some(name),
        Declarator::Nested { inner, .. } => name_of(inner),
        Declarator::Unnamed { .. } => None,
    }
}

/// Whether there are no pointers.
fn no_tokens(pointers: &[Token]) -> bool
    ensures { result ≡ no_tokens pointers.now }
{
    match pointers {
        [] => true,
        _ => false,
    }
}

/// Whether there are no suffixes.
#[tactic(auto, using(crate::proofs::Bare::counted))]
fn no_nodes(suffixes: &Trees) -> bool
    ensures { result ≡ no_nodes (nodes_of suffixes.now) }
{
    suffixes.all.is_empty()
}

/// Whether a declarator is a name alone, maybe in parentheses.
#[tactic(auto, using(crate::proofs::Bare::bare))]
pub fn is_bare(declarator: &Tree) -> bool
    ensures { result ≡ is_bare (node_of declarator.now) }
{
    match &declarator.kind {
        Kind::Declarator(kind) => match kind {
            Declarator::Named {
                pointers,
                suffixes,
                ..
            } => no_tokens(pointers) && no_nodes(suffixes),
            Declarator::Nested {
                pointers,
                inner,
                suffixes,
            } => { no_tokens(pointers) && no_nodes(suffixes) && is_bare(inner) }
            Declarator::Unnamed { .. } => false,
        },
        _ => false,
    }
}
