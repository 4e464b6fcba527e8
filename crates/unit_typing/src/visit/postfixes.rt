//! The types of subscripts, calls and members (ISO 9899:1990, 6.3.2). The role of an operator doesn't matter: `Plain` stands for it.

ghost use Rattle.std.specs.Prelude.{◌≡◌, IfOk};
ghost use Rattle.c_tree.specs.Node as nodes;
ghost use Rattle.c_tree.specs.Views.{node_of, nodes_of};
ghost use Rattle.type_rules.specs.Faults.{NotFunction};
ghost use Rattle.type_rules.specs.Options.{or_fault, ◌>>=◌ as and_then};
ghost use Rattle.type_rules.specs.Roles.{Callee, Plain};
ghost use Rattle.type_rules.specs.Ways.ScopesByCase.{scoped, scoped_each, within_operation};
ghost use Rattle.type_rules.specs.Ways.TablesByCase.{filled, filled_each, filled_operation};
ghost use Rattle.type_rules.specs.Types.{called};
ghost use Rattle.type_rules.specs.Ways.TypesByCase.{typed, typed_each, typed_operation};
ghost use Rattle.typed_unit.specs.Tables.{table_of};
ghost use Rattle.unit_typing.specs.Faults.{Gives};
ghost use Rattle.unit_typing.specs.Scopes.{scopes_of};

use super::rows::{arrow_row, call_row, index_row};
use super::{type_each, type_tree};
use crate::faults::TypeFault;
use crate::operands::member;
use crate::roles::Role;
use crate::scopes::Scopes;
use c_tree::{Arena, Place, Token, Tree, Trees};
use type_values::Ty;
use typed_unit::Table;

/// `array[index]` (6.3.2.1).
#[cycle(typing)]
pub(crate) fn type_index<'a>(
    arena: &'a Arena,
    scopes: &mut Scopes<'a>,
    place: Place,
    array: &Tree<'a>,
    index: &Tree<'a>,
    table: &mut Table<'a>,
) -> Result<Ty<'a>, TypeFault>
    ensures gives { let v = scopes_of scopes.old in Gives result (typed_operation v Plain place (nodes.Index (node_of array.now) (node_of index.now))) }
    ensures scopes { IfOk result (λ _. let v = scopes_of scopes.old in scopes_of scopes.new ≡ within_operation v Plain (nodes.Index (node_of array.now) (node_of index.now))) }
    ensures table { IfOk result (λ _. let v = scopes_of scopes.old in table_of table.new ≡ filled_operation v Plain (nodes.Index (node_of array.now) (node_of index.now)) (table_of table.old)) }
{
    let first = type_tree(arena, scopes, Role::Plain, array, table)?;
    let second = type_tree(arena, scopes, Role::Plain, index, table)?;
    index_row(place, first, second)
}

/// A call (6.3.2.2).
#[cycle(typing)]
pub(crate) fn type_call<'a>(
    arena: &'a Arena,
    scopes: &mut Scopes<'a>,
    place: Place,
    callee: &Tree<'a>,
    arguments: &Trees<'a>,
    table: &mut Table<'a>,
) -> Result<Ty<'a>, TypeFault>
    ensures gives { let v = scopes_of scopes.old in Gives result (and_then (typed v Callee (node_of callee.now)) (λ t. and_then (typed_each (scoped v Callee (node_of callee.now)) Plain (nodes_of arguments.now)) (λ _. or_fault (called t) (NotFunction place)))) }
    ensures scopes { IfOk result (λ _. let v = scopes_of scopes.old in scopes_of scopes.new ≡ scoped_each (scoped v Callee (node_of callee.now)) Plain (nodes_of arguments.now)) }
    ensures table { IfOk result (λ _. let v = scopes_of scopes.old in table_of table.new ≡ filled_each (scoped v Callee (node_of callee.now)) Plain (nodes_of arguments.now) (filled v Callee (node_of callee.now) (table_of table.old))) }
{
    let ty = type_tree(arena, scopes, Role::Callee, callee, table)?;
    type_each(arena, scopes, Role::Plain, arguments, table)?;
    call_row(place, ty)
}

/// `operand.name` (6.3.2.3).
#[cycle(typing)]
pub(crate) fn type_member<'a>(
    arena: &'a Arena,
    scopes: &mut Scopes<'a>,
    place: Place,
    operand: &Tree<'a>,
    name: &Token,
    table: &mut Table<'a>,
) -> Result<Ty<'a>, TypeFault>
    ensures gives { let v = scopes_of scopes.old in Gives result (typed_operation v Plain place (nodes.Member (node_of operand.now) name.now)) }
    ensures scopes { IfOk result (λ _. let v = scopes_of scopes.old in scopes_of scopes.new ≡ within_operation v Plain (nodes.Member (node_of operand.now) name.now)) }
    ensures table { IfOk result (λ _. let v = scopes_of scopes.old in table_of table.new ≡ filled_operation v Plain (nodes.Member (node_of operand.now) name.now) (table_of table.old)) }
{
    let ty = type_tree(arena, scopes, Role::Plain, operand, table)?;
    member(scopes, place, name, ty)
}

/// `operand->name` (6.3.2.3).
#[cycle(typing)]
pub(crate) fn type_arrow<'a>(
    arena: &'a Arena,
    scopes: &mut Scopes<'a>,
    place: Place,
    operand: &Tree<'a>,
    name: &Token,
    table: &mut Table<'a>,
) -> Result<Ty<'a>, TypeFault>
    ensures gives { let v = scopes_of scopes.old in Gives result (typed_operation v Plain place (nodes.Arrow (node_of operand.now) name.now)) }
    ensures scopes { IfOk result (λ _. let v = scopes_of scopes.old in scopes_of scopes.new ≡ within_operation v Plain (nodes.Arrow (node_of operand.now) name.now)) }
    ensures table { IfOk result (λ _. let v = scopes_of scopes.old in table_of table.new ≡ filled_operation v Plain (nodes.Arrow (node_of operand.now) name.now) (table_of table.old)) }
{
    let ty = type_tree(arena, scopes, Role::Plain, operand, table)?;
    arrow_row(scopes, place, name, ty)
}
