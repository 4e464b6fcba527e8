//! The types of operators on operands (ISO 9899:1990, 6.3.2 to 6.3.17).

ghost use Rattle.std.specs.Prelude.{◌≡◌, Ok, IfOk};
ghost use Rattle.c_tree.specs.Node as nodes;
ghost use Rattle.c_tree.specs.Views.{node_of, operation_shape};
ghost use Rattle.type_rules.specs.Options.{◌>>=◌ as and_then};
ghost use Rattle.type_rules.specs.Roles.{Plain};
ghost use Rattle.type_rules.specs.Rows as lines;
ghost use Rattle.type_rules.specs.Ways.ScopesByCase.{scoped, within_operation};
ghost use Rattle.type_rules.specs.Ways.TablesByCase.{filled, filled_operation};
ghost use Rattle.type_rules.specs.Types.{chosen, combined};
ghost use Rattle.type_rules.specs.Ways.TypesByCase.{typed, typed_operation};
ghost use Rattle.typed_unit.specs.Tables.{table_of};
ghost use Rattle.unit_typing.specs.Faults.{Gives};
ghost use Rattle.unit_typing.specs.Roles.{role_of};
ghost use Rattle.unit_typing.specs.Scopes.{scopes_of};

use super::postfixes::{type_arrow, type_call, type_index, type_member};
use super::rows::{if_lvalue, unary_row};
use super::type_tree;
use crate::faults::TypeFault;
use crate::operands::is_lvalue;
use crate::roles::Role;
use crate::scopes::Scopes;
use c_tree::{Arena, BinaryOp, Operation, Place, Tree, UnaryOp};
use type_values::{Arithmetic, Ty, chosen, combined};
use typed_unit::Table;

/// The type of an operator on its operands, of which `place` is the first token. Its role doesn't matter: `Plain` stands for it in
/// what is said of each operator.
#[cycle(typing)]
pub(crate) fn type_operation<'a>(
    arena: &'a Arena,
    scopes: &mut Scopes<'a>,
    role: Role<'a>,
    place: Place,
    kind: &Operation<'a>,
    table: &mut Table<'a>,
) -> Result<Ty<'a>, TypeFault>
    ensures gives { Gives result (typed_operation (scopes_of scopes.old) (role_of role.entry) place (operation_shape kind.now)) }
    ensures scopes { IfOk result (λ _. scopes_of scopes.new ≡ within_operation (scopes_of scopes.old) (role_of role.entry) (operation_shape kind.now)) }
    ensures table { IfOk result (λ _. table_of table.new ≡ filled_operation (scopes_of scopes.old) (role_of role.entry) (operation_shape kind.now) (table_of table.old)) }
{
    match kind {
        Operation::Index { array, index } => {
            type_index(arena, scopes, place, array, index, table)
        }
        Operation::Call {
            callee,
            arguments,
            ..
        } => { type_call(arena, scopes, place, callee, arguments, table) }
        Operation::Member { operand, member } => {
            type_member(arena, scopes, place, operand, member, table)
        }
        Operation::Arrow { operand, member } => {
            type_arrow(arena, scopes, place, operand, member, table)
        }
        Operation::CompoundLit { of, braces } => type_cast(arena, scopes, of, braces, table),
        Operation::Unary { op, operand } => type_unary(arena, scopes, place, *op, operand, table),
        Operation::SizeofType { of } => {
            type_tree(arena, scopes, Role::Plain, of, table)?;
            Ok(Ty::Arith(Arithmetic::UnsignedLong))
        }
        Operation::Cast { to, operand } => type_cast(arena, scopes, to, operand, table),
        Operation::Binary { op, left, right } => type_binary(
            arena, scopes, *op, left, right, table,
        ),
        Operation::Cond {
            condition,
            then,
            otherwise,
        } => { type_cond(arena, scopes, condition, then, otherwise, table) }
        Operation::Assign { left, right, .. } => {
            type_assign(arena, scopes, place, left, right, table)
        }
    }
}

/// An operator with one operand (6.3.2.4, 6.3.3). Whether that is an lvalue is asked before it is visited, since it may declare
/// tags and enumerators.
#[cycle(typing)]
fn type_unary<'a>(
    arena: &'a Arena,
    scopes: &mut Scopes<'a>,
    place: Place,
    op: UnaryOp,
    operand: &Tree<'a>,
    table: &mut Table<'a>,
) -> Result<Ty<'a>, TypeFault>
    ensures gives { let v = scopes_of scopes.old in Gives result (typed_operation v Plain place (nodes.Unary op (node_of operand.now))) }
    ensures scopes { IfOk result (λ _. let v = scopes_of scopes.old in scopes_of scopes.new ≡ within_operation v Plain (nodes.Unary op (node_of operand.now))) }
    ensures table { IfOk result (λ _. let v = scopes_of scopes.old in table_of table.new ≡ filled_operation v Plain (nodes.Unary op (node_of operand.now)) (table_of table.old)) }
{
    let lvalue = is_lvalue(scopes, operand);
    let ty = type_tree(arena, scopes, Role::Plain, operand, table)?;
    unary_row(arena, place, op, lvalue, ty)
}

/// `(to) operand` (6.3.4). A compound literal likewise has the type that it names (ISO 9899:1999, 6.5.2.5).
#[cycle(typing)]
fn type_cast<'a>(
    arena: &'a Arena,
    scopes: &mut Scopes<'a>,
    to: &Tree<'a>,
    operand: &Tree<'a>,
    table: &mut Table<'a>,
) -> Result<Ty<'a>, TypeFault>
    ensures gives { let v = scopes_of scopes.old in Gives result (and_then (typed v Plain (node_of to.now)) (λ t. and_then (typed (scoped v Plain (node_of to.now)) Plain (node_of operand.now)) (λ _. Ok t))) }
    ensures scopes { IfOk result (λ _. let v = scopes_of scopes.old in scopes_of scopes.new ≡ scoped (scoped v Plain (node_of to.now)) Plain (node_of operand.now)) }
    ensures table { IfOk result (λ _. let v = scopes_of scopes.old in table_of table.new ≡ filled (scoped v Plain (node_of to.now)) Plain (node_of operand.now) (filled v Plain (node_of to.now) (table_of table.old))) }
{
    let ty = type_tree(arena, scopes, Role::Plain, to, table)?;
    type_tree(arena, scopes, Role::Plain, operand, table)?;
    Ok(ty)
}

/// An operator between two operands (6.3.5 to 6.3.14, 6.3.17).
#[cycle(typing)]
fn type_binary<'a>(
    arena: &'a Arena,
    scopes: &mut Scopes<'a>,
    op: BinaryOp,
    left: &Tree<'a>,
    right: &Tree<'a>,
    table: &mut Table<'a>,
) -> Result<Ty<'a>, TypeFault>
    ensures gives { let v = scopes_of scopes.old in Gives result (and_then (typed v Plain (node_of left.now)) (λ s. and_then (typed (scoped v Plain (node_of left.now)) Plain (node_of right.now)) (λ t. Ok (combined op s t)))) }
    ensures scopes { IfOk result (λ _. let v = scopes_of scopes.old in scopes_of scopes.new ≡ scoped (scoped v Plain (node_of left.now)) Plain (node_of right.now)) }
    ensures table { IfOk result (λ _. let v = scopes_of scopes.old in table_of table.new ≡ filled (scoped v Plain (node_of left.now)) Plain (node_of right.now) (filled v Plain (node_of left.now) (table_of table.old))) }
{
    let first = type_tree(arena, scopes, Role::Plain, left, table)?;
    let second = type_tree(arena, scopes, Role::Plain, right, table)?;
    Ok(combined(op, first, second))
}

/// `condition ? second : third` (6.3.15).
#[cycle(typing)]
fn type_cond<'a>(
    arena: &'a Arena,
    scopes: &mut Scopes<'a>,
    condition: &Tree<'a>,
    second: &Tree<'a>,
    third: &Tree<'a>,
    table: &mut Table<'a>,
) -> Result<Ty<'a>, TypeFault>
    ensures gives { let v = scopes_of scopes.old in Gives result (and_then (typed v Plain (node_of condition.now)) (λ _. and_then (typed (scoped v Plain (node_of condition.now)) Plain (node_of second.now)) (λ s. and_then (typed (scoped (scoped v Plain (node_of condition.now)) Plain (node_of second.now)) Plain (node_of third.now)) (λ t. Ok (chosen s t))))) }
    ensures scopes { IfOk result (λ _. let v = scopes_of scopes.old in scopes_of scopes.new ≡ scoped (scoped (scoped v Plain (node_of condition.now)) Plain (node_of second.now)) Plain (node_of third.now)) }
    ensures table { IfOk result (λ _. let v = scopes_of scopes.old in table_of table.new ≡ filled (scoped (scoped v Plain (node_of condition.now)) Plain (node_of second.now)) Plain (node_of third.now) (filled (scoped v Plain (node_of condition.now)) Plain (node_of second.now) (filled v Plain (node_of condition.now) (table_of table.old)))) }
{
    type_tree(arena, scopes, Role::Plain, condition, table)?;
    let ty = type_tree(arena, scopes, Role::Plain, second, table)?;
    let other = type_tree(arena, scopes, Role::Plain, third, table)?;
    Ok(chosen(ty, other))
}

/// An assignment (6.3.16). Whether the left side is an lvalue is asked before it is visited.
#[cycle(typing)]
fn type_assign<'a>(
    arena: &'a Arena,
    scopes: &mut Scopes<'a>,
    place: Place,
    left: &Tree<'a>,
    right: &Tree<'a>,
    table: &mut Table<'a>,
) -> Result<Ty<'a>, TypeFault>
    ensures gives { let v = scopes_of scopes.old in Gives result (and_then (typed v Plain (node_of left.now)) (λ t. and_then (typed (scoped v Plain (node_of left.now)) Plain (node_of right.now)) (λ _. lines.if_lvalue v place (node_of left.now) t))) }
    ensures scopes { IfOk result (λ _. let v = scopes_of scopes.old in scopes_of scopes.new ≡ scoped (scoped v Plain (node_of left.now)) Plain (node_of right.now)) }
    ensures table { IfOk result (λ _. let v = scopes_of scopes.old in table_of table.new ≡ filled (scoped v Plain (node_of left.now)) Plain (node_of right.now) (filled v Plain (node_of left.now) (table_of table.old))) }
{
    let lvalue = is_lvalue(scopes, left);
    let ty = type_tree(arena, scopes, Role::Plain, left, table)?;
    type_tree(arena, scopes, Role::Plain, right, table)?;
    if_lvalue(place, lvalue, ty)
}
