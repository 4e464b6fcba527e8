//! What makes a declarator and its specifiers those of a function's definition (ISO 9899:1990, 6.7.1).

ghost use Rattle.std.specs.Prelude.{◌≡◌};
ghost use Rattle.std.specs.Option.{option_map};
ghost use Rattle.c_tree.specs.Symbol.{symbols_of};
ghost use Rattle.c_tree.specs.Forget.{view, view_all, list_view, declarator_view};
ghost use Rattle.c_grammar.specs.Names.{is_bare, is_bare_declarator, first_params, params_of, declarator_params};
ghost use Rattle.c_grammar.specs.Grammar.{is_nothing};
ghost use Rattle.c_grammar.specs.UnitGrammar.Grammar.{is_body, has_body, may_define};
ghost use Rattle.c_parser.specs.Suffixes.{params_in};

use crate::declared::makes_types;
use c_tree::{Declarator, Kind, Part, Specifier, Token, Tree, Trees};

/// Whether the specifier has a body.
fn is_body(item: &Tree) -> bool
    ensures { result ≡ is_body (view item.now) }
{
    match &item.kind {
        Kind::Specifier(specifier) => match specifier {
            Specifier::StructBody { .. } | Specifier::EnumBody { .. } => true,
            _ => false,
        },
        _ => false,
    }
}

/// Whether a specifier has a body.
#[tactic(auto, using(crate::proofs::Lists::lists))]
fn has_body(items: &[Tree]) -> bool
    ensures { result ≡ has_body (view_all items.now) }
{
    for item in items {
        if is_body(item) {
            return true;
        }
    }
    false
}

/// Whether a function may have these specifiers.
#[tactic(auto, using(crate::proofs::Lists::list_out))]
pub(crate) fn may_define(specs: &Tree) -> bool
    ensures { result ≡ may_define (view specs.now) }
{
    match &specs.kind {
        Kind::Specifier(specifier) => match specifier {
            Specifier::Specs { items } => !makes_types(specs) && !has_body(items.all),
            _ => false,
        },
        _ => false,
    }
}

/// Whether a declarator is a name alone, maybe in parentheses.
#[cycle(is_bare)]
fn is_bare(tree: &Tree) -> bool
    ensures { result ≡ is_bare (view tree.now) }
{
    match &tree.kind {
        Kind::Declarator(declarator) => is_bare_declarator(declarator),
        _ => false,
    }
}

#[cycle(is_bare)]
#[tactic(auto, using(crate::proofs::FunctionForms::bare))]
fn is_bare_declarator(declarator: &Declarator) -> bool
    ensures { result ≡ is_bare_declarator (declarator_view declarator.now) }
{
    match declarator {
        Declarator::Named {
            pointers,
            suffixes,
            ..
        } => is_nothing(pointers, suffixes),
        Declarator::Nested {
            pointers,
            inner,
            suffixes,
        } => is_nothing(pointers, suffixes) && is_bare(inner),
        Declarator::Unnamed { .. } => false,
    }
}

/// Whether a declarator has neither pointers nor suffixes.
#[tactic(auto, using(crate::proofs::FunctionForms::nothing_told))]
fn is_nothing(pointers: &[Token], suffixes: &Trees) -> bool
    ensures { result ≡ is_nothing (symbols_of pointers.now) (list_view suffixes.now) }
{
    pointers.is_empty() && suffixes.all.is_empty()
}

/// The parameters that a suffix is.
#[tactic(auto, using(crate::proofs::Lists::list_out))]
fn params_in<'a>(suffix: &Tree<'a>) -> Option<&'a [Tree<'a>]>
    ensures { option_map (λ params. view_all params.now) result ≡ params_in (view suffix.now) }
{
    match &suffix.kind {
        Kind::Part(part) => match part {
            Part::Params { params, .. } => Some(params.all),
            Part::VoidParams => Some(&[]),
            Part::SpecWord { .. }
            | Part::ArrayBound { .. }
            | Part::Enumerator { .. }
            | Part::MemberDesignator { .. }
            | Part::IndexDesignator { .. } => None,
        },
        _ => None,
    }
}

/// The parameters of the first suffix, if it is a list of parameters.
#[tactic(auto, using(crate::proofs::FunctionForms::first_of))]
fn first_params<'a>(suffixes: &[Tree<'a>]) -> Option<&'a [Tree<'a>]>
    ensures { option_map (λ params. view_all params.now) result ≡ first_params (view_all suffixes.now) }
{
    match suffixes {
        [] => None,
        [first, ..] => params_in(first),
    }
}

/// The parameters of a declarator that, read from its name outward, is first of all a function.
#[cycle(params_of)]
pub(crate) fn params_of<'a>(tree: &Tree<'a>) -> Option<&'a [Tree<'a>]>
    ensures { option_map (λ params. view_all params.now) result ≡ params_of (view tree.now) }
{
    match &tree.kind {
        Kind::Declarator(declarator) => params_of_declarator(declarator),
        _ => None,
    }
}

#[cycle(params_of)]
#[tactic(auto, using(crate::proofs::Lists::list_out))]
fn params_of_declarator<'a>(declarator: &Declarator<'a>) -> Option<&'a [Tree<'a>]>
    ensures { option_map (λ params. view_all params.now) result ≡ declarator_params (declarator_view declarator.now) }
{
    match declarator {
        Declarator::Named { suffixes, .. } => first_params(suffixes.all),
        Declarator::Nested {
            inner,
            suffixes,
            ..
        } => if is_bare(inner) {
            first_params(suffixes.all)
        } else {
            params_of(inner)
        },
        Declarator::Unnamed { .. } => None,
    }
}
