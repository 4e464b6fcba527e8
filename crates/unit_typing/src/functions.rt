//! The functions that a unit defines (ISO 9899:1990, 6.7.1).

ghost use Rattle.std.specs.Prelude.{◌≡◌, ◌||◌, false, map, IfOk};
ghost use Rattle.std.specs.Option.{option_map};
ghost use Rattle.c_grammar.specs.Specifiers as words;
ghost use Rattle.c_tree.specs.Node.{Nodes, more};
ghost use Rattle.c_tree.specs.Views.{node_of, nodes_of, maybe_token, option_node, declarator_shape};
ghost use Rattle.type_rules.specs.Functions.{formal_var, name_in, formal_in, formals_in, first_formals, formals_of, formals_of_shape, any_inline, has_inline, is_static, was_static, defined_in};
ghost use Rattle.type_rules.specs.Options.{if_there};
ghost use Rattle.type_rules.specs.Scopes as held;
ghost use Rattle.type_rules.specs.Specified.{keyword_in};
ghost use Rattle.type_rules.specs.Specified as specified;
ghost use Rattle.typed_unit.specs.Functions.{function_of};
ghost use Rattle.type_values.specs.Vars.{cvar_of};
ghost use Rattle.unit_typing.specs.Storage.{storage_seen};
ghost use Rattle.unit_typing.specs.Units.{KnowsStatics};

use crate::declarators::{is_bare, name_of};
use crate::statics::Statics;
use crate::storage::{Storage, keyword_in, storage_of};
use c_tree::{Declarator, Keyword, Kind, Outer, Part, Specifier, Token, Tree, Trees};
use std::alloc::{AllocError, Global};
use type_values::Var;
use typed_unit::TypedFunction;

/// The variable that a parameter of this name is.
fn formal_var(name: &Token) -> Var
    ensures { cvar_of result ≡ formal_var name.now }
{
    Var::Param {
        file: name.place.file,
        token: name.place.token,
        name: name.name,
    }
}

/// The name in a declarator that may be missing.
fn name_in<'a>(declarator: Option<&Tree<'a>>) -> Option<&'a Token>
    ensures { maybe_token result ≡ name_in (option_node declarator.entry) }
{
    match declarator {
        None => None,
        Some(declarator) => name_of(declarator),
    }
}

/// The variable that a parameter is, if it has a name.
fn formal_in(param: &Tree) -> Option<Var>
    ensures { option_map cvar_of result ≡ formal_in (node_of param.now) }
{
    match &param.kind {
        Kind::Specifier(Specifier::Param { declarator, .. }) => match name_in(*declarator) {
            Some(name) => Some(formal_var(name)),
            None => None,
        },
        _ => None,
    }
}

/// The variables that these parameters are.
#[tactic(auto, using(crate::proofs::Steps::steps))]
fn formals_in(alloc: Global, params: &Trees) -> Result<Vec<Option<Var>>, AllocError>
    ensures { IfOk result (λ found. map (option_map cvar_of) found.items ≡ formals_in (nodes_of params.now)) }
{
    let mut found = Vec::new(alloc);
    for param in params.all {
        found.push(formal_in(param))?;
    }
    Ok(found)
}

/// The parameters in the suffix beside a name, whatever others follow.
fn formals_beside(alloc: Global, suffix: &Tree) -> Result<Vec<Option<Var>>, AllocError>
    ensures { IfOk result (λ found. (others : Nodes) → map (option_map cvar_of) found.items ≡ first_formals (more (node_of suffix.now) others)) }
{
    match &suffix.kind {
        Kind::Part(Part::Params { params, .. }) => formals_in(alloc, params),
        _ => Ok(Vec::new(alloc)),
    }
}

/// The parameters beside a name.
#[tactic(auto, using(crate::proofs::Steps::steps))]
fn first_formals(alloc: Global, suffixes: &Trees) -> Result<Vec<Option<Var>>, AllocError>
    ensures { IfOk result (λ found. map (option_map cvar_of) found.items ≡ first_formals (nodes_of suffixes.now)) }
{
    match suffixes.all {
        [first, ..] => formals_beside(alloc, first),
        [] => Ok(Vec::new(alloc)),
    }
}

/// The parameters of a declarator that, read from its name outward, is first of all a function.
#[cycle(formals)]
fn formals_of(alloc: Global, declarator: &Tree) -> Result<Vec<Option<Var>>, AllocError>
    ensures { IfOk result (λ found. map (option_map cvar_of) found.items ≡ formals_of (node_of declarator.now)) }
{
    match &declarator.kind {
        Kind::Declarator(kind) => formals_of_shape(alloc, kind),
        _ => Ok(Vec::new(alloc)),
    }
}

/// The same, of what a declarator is.
#[cycle(formals)]
fn formals_of_shape(alloc: Global, kind: &Declarator) -> Result<Vec<Option<Var>>, AllocError>
    ensures { IfOk result (λ found. map (option_map cvar_of) found.items ≡ formals_of_shape (declarator_shape kind.now)) }
{
    match kind {
        Declarator::Named { suffixes, .. } => first_formals(alloc, suffixes),
        Declarator::Nested {
            inner,
            suffixes,
            ..
        } => {
            if is_bare(inner) {
                first_formals(alloc, suffixes)
            } else {
                formals_of(alloc, inner)
            }
        }
        Declarator::Unnamed { .. } => Ok(Vec::new(alloc)),
    }
}

fn is_inline(word: Keyword) -> bool
    ensures { result ≡ words.is_inline word }
{
    match word {
        Keyword::Inline => true,
        _ => false,
    }
}

/// Whether a specifier is `inline`.
fn says_inline(item: &Tree) -> bool
    ensures { result ≡ if_there (keyword_in (node_of item.now)) false words.is_inline }
{
    match keyword_in(item) {
        Some(word) => is_inline(word),
        None => false,
    }
}

/// Whether one of these specifiers is `inline`.
#[tactic(auto, using(crate::proofs::Steps::steps))]
fn any_inline(items: &Trees) -> bool
    ensures { result ≡ any_inline (nodes_of items.now) }
{
    for item in items.all {
        if says_inline(item) {
            return true;
        }
    }
    false
}

fn has_inline(specs: &Tree) -> bool
    ensures { result ≡ has_inline (node_of specs.now) }
{
    match &specs.kind {
        Kind::Specifier(Specifier::Specs { items }) => any_inline(items),
        _ => false,
    }
}

fn is_static(storage: Storage) -> bool
    ensures { result ≡ is_static (storage_seen storage) }
{
    match storage {
        Storage::Static => true,
        Storage::Unmarked | Storage::Typedef | Storage::Extern => false,
    }
}

/// Whether a definition with these specifiers belongs to its file alone.
fn is_own(statics: &Statics, specs: &Tree, name: u32) -> bool
    ensures { (v : held.Scopes) → KnowsStatics statics.now v → result ≡ (is_static (specified.storage_of (node_of specs.now)) || has_inline (node_of specs.now) || was_static name v.names) }
{
    is_static(storage_of(specs)) || has_inline(specs) || statics.has(name)
}

/// The function that an external definition defines, where these names are `static` before it.
pub(crate) fn defined_in<'a>(
    alloc: Global,
    statics: &Statics,
    tree: &Tree<'a>,
) -> Result<Option<TypedFunction<'a>>, AllocError>
    ensures { IfOk result (λ found. (v : held.Scopes) → KnowsStatics statics.now v → option_map function_of found ≡ defined_in v (node_of tree.now)) }
{
    match &tree.kind {
        Kind::Outer(
            Outer::Function {
                specs,
                declarator,
                body,
            },
        ) => match name_of(declarator) {
            Some(name) => {
                let formals = formals_of(alloc, declarator)?;
                Ok(Some(TypedFunction {
                    name: name.name,
                    own: is_own(statics, specs, name.name),
                    file: name.place.file,
                    formals,
                    body: *body,
                    place: name.place,
                }))
            }
            None => Ok(None),
        },
        _ => Ok(None),
    }
}
