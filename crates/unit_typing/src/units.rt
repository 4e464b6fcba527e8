//! The types of a translation unit (ISO 9899:1990, 6.7).

ghost use Rattle.std.specs.Prelude.{◌≡◌, ◌++◌, [], ◌∷◌, None, Some, map, IfOk, IfErr};
ghost use Rattle.c_tree.specs.TokenPlaces.{StandInFile};
ghost use Rattle.c_tree.specs.Views.{node_of, nodes_of};
ghost use Rattle.type_rules.specs.Definition.{first_fault};
ghost use Rattle.type_rules.specs.Faults.{Fault};
ghost use Rattle.type_rules.specs.Functions as functions_by;
ghost use Rattle.type_rules.specs.Options.{if_there};
ghost use Rattle.type_rules.specs.Roles as held;
ghost use Rattle.type_rules.specs.Scopes as names;
ghost use Rattle.type_rules.specs.Ways.ScopesByCase.{scoped, scoped_each};
ghost use Rattle.type_rules.specs.Ways.TablesByCase.{filled, filled_each};
ghost use Rattle.type_rules.specs.Ways.TypesByCase.{typed, typed_each};
ghost use Rattle.type_rules.specs.Unit.{IsFirstFault, places_of, table_by};
ghost use Rattle.typed_unit.specs.Functions.{function_of};
ghost use Rattle.typed_unit.specs.Places.{StandOver};
ghost use Rattle.typed_unit.specs.Tables.{table_of};
ghost use Rattle.unit_typing.specs.Faults.{Gives, fault_of};
ghost use Rattle.unit_typing.specs.Scopes.{scopes_of};
ghost use Rattle.unit_typing.specs.Units.{KnowsStatics};

use crate::faults::TypeFault;
use crate::functions::defined_in;
use crate::roles::Role;
use crate::scopes::Scopes;
use crate::statics::Statics;
use crate::visit::type_tree;
use c_tree::{Arena, Tree, Trees};
use std::alloc::{AllocError, Global};
use type_rules::{functions_by_case, numbers_differ, scopes_stay, units_by_case};
use type_values::{Ty, Unit};
use typed_unit::{Table, TypedFunction, TypedUnit};

/// Adds the function that an external definition defines, if it is one.
fn add_function<'a>(
    alloc: Global,
    statics: &Statics,
    tree: &Tree<'a>,
    functions: &mut Vec<TypedFunction<'a>>,
) -> Result<(), AllocError>
    ensures { IfOk result (λ _. (v : names.Scopes) → KnowsStatics statics.now v → map function_of functions.new.items ≡ map function_of functions.old.items ++ if_there (functions_by.defined_in v (node_of tree.now)) [] (λ f. f ∷ [])) }
{
    if let Some(function) = defined_in(alloc, statics, tree)? {
        functions.push(function)?;
    }
    Ok(())
}

/// Types an external definition, and notes the names that it makes `static`.
fn type_external<'a>(
    arena: &'a Arena,
    scopes: &mut Scopes<'a>,
    statics: &mut Statics,
    tree: &Tree<'a>,
    table: &mut Table<'a>,
) -> Result<Ty<'a>, TypeFault>
    requires statics { KnowsStatics statics.old (scopes_of scopes.old) }
    ensures gives { Gives result (typed (scopes_of scopes.old) held.Plain (node_of tree.now)) }
    ensures scopes { IfOk result (λ _. scopes_of scopes.new ≡ scoped (scopes_of scopes.old) held.Plain (node_of tree.now)) }
    ensures table { IfOk result (λ _. table_of table.new ≡ filled (scopes_of scopes.old) held.Plain (node_of tree.now) (table_of table.old)) }
    ensures statics { IfOk result (λ _. KnowsStatics statics.new (scopes_of scopes.new)) }
{
    scopes_stay();
    let before = scopes.count_names();
    let ty = type_tree(arena, scopes, Role::Plain, tree, table)?;
    statics.add(scopes.names_behind(before))?;
    Ok(ty)
}

/// Types an external definition, notes the names that it makes `static`, and adds the function that it defines, if it is one.
fn type_definition<'a>(
    arena: &'a Arena,
    alloc: Global,
    scopes: &mut Scopes<'a>,
    statics: &mut Statics,
    tree: &Tree<'a>,
    table: &mut Table<'a>,
    functions: &mut Vec<TypedFunction<'a>>,
) -> Result<Ty<'a>, TypeFault>
    requires statics { KnowsStatics statics.old (scopes_of scopes.old) }
    ensures gives { Gives result (typed (scopes_of scopes.old) held.Plain (node_of tree.now)) }
    ensures scopes { IfOk result (λ _. scopes_of scopes.new ≡ scoped (scopes_of scopes.old) held.Plain (node_of tree.now)) }
    ensures table { IfOk result (λ _. table_of table.new ≡ filled (scopes_of scopes.old) held.Plain (node_of tree.now) (table_of table.old)) }
    ensures statics { IfOk result (λ _. KnowsStatics statics.new (scopes_of scopes.new)) }
    ensures functions { IfOk result (λ _. map function_of functions.new.items ≡ map function_of functions.old.items ++ if_there (functions_by.defined_in (scopes_of scopes.old) (node_of tree.now)) [] (λ f. f ∷ [])) }
{
    add_function(alloc, statics, tree, functions)?;
    type_external(arena, scopes, statics, tree, table)
}

/// Types external definitions one after the other.
fn type_definitions<'a>(
    arena: &'a Arena,
    alloc: Global,
    scopes: &mut Scopes<'a>,
    statics: &mut Statics,
    chunks: &Trees<'a>,
    table: &mut Table<'a>,
    functions: &mut Vec<TypedFunction<'a>>,
) -> Result<Ty<'a>, TypeFault>
    requires statics { KnowsStatics statics.old (scopes_of scopes.old) }
    ensures gives { Gives result (typed_each (scopes_of scopes.old) held.Plain (nodes_of chunks.now)) }
    ensures scopes { IfOk result (λ _. scopes_of scopes.new ≡ scoped_each (scopes_of scopes.old) held.Plain (nodes_of chunks.now)) }
    ensures table { IfOk result (λ _. table_of table.new ≡ filled_each (scopes_of scopes.old) held.Plain (nodes_of chunks.now) (table_of table.old)) }
    ensures functions { IfOk result (λ _. map function_of functions.new.items ≡ map function_of functions.old.items ++ functions_by.defined_each (scopes_of scopes.old) (nodes_of chunks.now)) }
{
    for tree in chunks.all {
        type_definition(arena, alloc, scopes, statics, tree, table, functions)?;
    }
    Ok(Ty::Void)
}

/// Types a unit whose trees stand over its tokens: the type of each expression, type name and declared name, the variables
/// behind the names, the tags, and the functions that it defines.
///
/// Each of the seven faults comes exactly where it is the first in the order of the text.
pub fn type_unit<'a>(
    arena: &'a Arena,
    alloc: Global,
    unit: Unit<'a>,
) -> Result<TypedUnit<'a>, TypeFault>
    requires placed { StandInFile unit.file unit.tokens.now }
    requires standing { StandOver (nodes_of unit.chunks) unit.tokens.now }
    ensures unit { IfOk result (λ typed. typed.unit ≡ unit.entry) }
    ensures table { IfOk result (λ typed. table_of typed.table ≡ table_by (nodes_of unit.entry.chunks)) }
    ensures fine { IfOk result (λ _. first_fault (places_of (nodes_of unit.entry.chunks)) ≡ None) }
    ensures functions { IfOk result (λ typed. map function_of typed.functions.items ≡ functions_by.functions_of (nodes_of unit.entry.chunks)) }
    ensures refused { IfErr result (λ e. (f : Fault) → fault_of e ≡ Some f → IsFirstFault (nodes_of unit.entry.chunks) f) }
{
    units_by_case();
    functions_by_case();
    numbers_differ();
    let mut scopes = Scopes::new(alloc);
    let mut statics = Statics::new(alloc);
    let mut table = Table::new(alloc);
    let mut functions = Vec::new(alloc);
    match type_definitions(
        arena,
        alloc,
        &mut scopes,
        &mut statics,
        &unit.chunks,
        &mut table,
        &mut functions,
    ) {
        Err(fault) => Err(fault),
        Ok(_) => Ok(TypedUnit::new(unit, functions, table, scopes.into_tags())),
    }
}
