//! What finished trees declare (ISO 9899:1990, 6.1.2.1, 6.5.6).

ghost use Rattle.std.specs.Prelude.{◌≡◌, IfOk};
ghost use Rattle.c_tree.specs.Forget.{view, view_all};
ghost use Rattle.c_tree.specs.Symbol.{symbol_of};
ghost use Rattle.c_tree.specs.Syntax as kinds;
ghost use Rattle.c_grammar.specs.Specifiers.{storages_of, storages};
ghost use Rattle.c_grammar.specs.Names.{with_name, with_params};
ghost use Rattle.c_grammar.specs.UnitGrammar.Names.{has_typedef, makes_types, declared_name};

use c_expr::{declare_param, name_of};
use c_grammar::TypeNames;
use c_tree::{Initializer, Keyword, Kind, Part, Specifier, Token, TokenKind, Tree};
use std::alloc::AllocError;

/// Whether the word is `typedef`.
#[tactic(auto, using(crate::proofs::Typedefs::typedefs))]
fn is_typedef_word(word: &Token) -> bool
    ensures { result ≡ has_typedef (storages_of (kinds.Part (kinds.SpecWord (symbol_of word.now)))) }
{
    match word.kind {
        TokenKind::Keyword(word) => match word {
            Keyword::Typedef => true,
            _ => false,
        },
        _ => false,
    }
}

/// Whether the specifier is `typedef`.
#[tactic(auto, using(crate::proofs::Typedefs::typedef_none))]
fn is_typedef(item: &Tree) -> bool
    ensures { result ≡ has_typedef (storages_of (view item.now)) }
{
    match &item.kind {
        Kind::Part(part) => match part {
            Part::SpecWord { word } => is_typedef_word(word),
            Part::ArrayBound { .. }
            | Part::VoidParams
            | Part::Params { .. }
            | Part::Enumerator { .. }
            | Part::MemberDesignator { .. }
            | Part::IndexDesignator { .. } => false,
        },
        _ => false,
    }
}

/// Whether `typedef` is among the specifiers.
#[tactic(auto, using(crate::proofs::Lists::lists, crate::proofs::Typedefs::typedefs))]
fn has_typedef(items: &[Tree]) -> bool
    ensures { result ≡ has_typedef (storages (view_all items.now)) }
{
    for item in items {
        if is_typedef(item) {
            return true;
        }
    }
    false
}

/// Whether what is declared with these specifiers is a type.
#[tactic(auto, using(crate::proofs::Lists::list_out))]
pub(crate) fn makes_types(specs: &Tree) -> bool
    ensures { result ≡ makes_types (view specs.now) }
{
    match &specs.kind {
        Kind::Specifier(specifier) => match specifier {
            Specifier::Specs { items } => has_typedef(items.all),
            _ => false,
        },
        _ => false,
    }
}

/// The name that a declarator declares, with or without an initial value.
pub(crate) fn declared_name(tree: &Tree) -> Option<u32>
    ensures { result ≡ declared_name (view tree.now) }
{
    match &tree.kind {
        Kind::Initializer(initializer) => match initializer {
            Initializer::Init { declarator, .. } => name_of(declarator),
            _ => None,
        },
        _ => name_of(tree),
    }
}

/// Puts a name in force, if there is one.
pub(crate) fn declare(
    names: &mut TypeNames,
    name: Option<u32>,
    is_type: bool,
) -> Result<(), AllocError>
    ensures now { IfOk result (λ _. names.new.now ≡ with_name name is_type names.old.now) }
    ensures saved { names.new.saved ≡ names.old.saved }
{
    match name {
        None => Ok(()),
        Some(name) => {
            names.declare(name, is_type)?;
            Ok(())
        }
    }
}

/// Puts parameters in force, the first first.
#[tactic(auto, using(crate::proofs::Lists::lists))]
pub(crate) fn declare_all(names: &mut TypeNames, params: &[Tree]) -> Result<(), AllocError>
    ensures now { IfOk result (λ _. names.new.now ≡ with_params (view_all params.now) names.old.now) }
    ensures saved { names.new.saved ≡ names.old.saved }
{
    for param in params {
        declare_param(names, param)?;
    }
    Ok(())
}
