//! The visit of statements (ISO 9899:1990, 6.6.1 to 6.6.4).

ghost use Rattle.std.specs.Prelude.{◌≡◌, Ok, IfOk};
ghost use Rattle.c_tree.specs.declared.place.Place.{Place};
ghost use Rattle.c_tree.specs.Node as nodes;
ghost use Rattle.c_tree.specs.Views.{node_of, nodes_of, option_node, statement_shape};
ghost use Rattle.type_rules.specs.Moves.{closed, opened_block};
ghost use Rattle.type_rules.specs.Options.{◌>>=◌ as and_then};
ghost use Rattle.type_rules.specs.Roles.{Plain};
ghost use Rattle.type_rules.specs.Scopes.{leave};
ghost use Rattle.type_rules.specs.Ways.ScopesByCase.{scoped, scoped_each, scoped_maybe, within_statement};
ghost use Rattle.type_rules.specs.Ways.TablesByCase.{filled, filled_each, filled_maybe, filled_statement};
ghost use Rattle.type_rules.specs.Types.{Void};
ghost use Rattle.type_rules.specs.Ways.TypesByCase.{typed, typed_each, typed_maybe, typed_statement};
ghost use Rattle.typed_unit.specs.Tables.{table_of};
ghost use Rattle.unit_typing.specs.Faults.{Gives};
ghost use Rattle.unit_typing.specs.Roles.{role_of};
ghost use Rattle.unit_typing.specs.Scopes.{IsMark, scopes_of};

use super::{type_both, type_each, type_maybe, type_tree};
use crate::faults::TypeFault;
use crate::roles::Role;
use crate::scopes::{Mark, Scopes};
use c_tree::{Arena, Statement, Tree, Trees};
use std::alloc::AllocError;
use type_rules::scopes_stay;
use type_values::Ty;
use typed_unit::Table;

/// Begins the scope of a block. In the body of a function its parameters are in force.
fn enter_block<'a>(scopes: &mut Scopes<'a>, role: Role<'a>) -> Result<Mark, AllocError>
    ensures mark { IfOk result (λ mark. IsMark mark (scopes_of scopes.old)) }
    ensures scopes { IfOk result (λ _. scopes_of scopes.new ≡ opened_block (scopes_of scopes.old) (role_of role.entry)) }
{
    match role {
        Role::Body => scopes.enter_body(),
        _ => scopes.enter(),
    }
}

/// Types a block. What it declares is in force in it alone.
#[cycle(typing)]
fn type_block<'a>(
    arena: &'a Arena,
    scopes: &mut Scopes<'a>,
    role: Role<'a>,
    items: &Trees<'a>,
    table: &mut Table<'a>,
) -> Result<Ty<'a>, TypeFault>
    ensures gives { let v = scopes_of scopes.old in Gives result (and_then (typed_each (opened_block v (role_of role.entry)) Plain (nodes_of items.now)) (λ _. Ok Void)) }
    ensures scopes { IfOk result (λ _. let v = scopes_of scopes.old in scopes_of scopes.new ≡ leave v (scoped_each (opened_block v (role_of role.entry)) Plain (nodes_of items.now))) }
    ensures table { IfOk result (λ _. let v = scopes_of scopes.old in table_of table.new ≡ filled_each (opened_block v (role_of role.entry)) Plain (nodes_of items.now) (table_of table.old)) }
{
    scopes_stay();
    let mark = enter_block(scopes, role)?;
    type_each(arena, scopes, Role::Plain, items, table)?;
    scopes.leave(mark);
    Ok(Ty::Void)
}

/// Types `if (condition) body else otherwise` (6.6.4.1).
#[cycle(typing)]
fn type_if<'a>(
    arena: &'a Arena,
    scopes: &mut Scopes<'a>,
    condition: &Tree<'a>,
    body: &Tree<'a>,
    otherwise: Option<&Tree<'a>>,
    table: &mut Table<'a>,
) -> Result<Ty<'a>, TypeFault>
    ensures gives { let v = scopes_of scopes.old in Gives result (and_then (typed v Plain (node_of condition.now)) (λ _. and_then (typed (scoped v Plain (node_of condition.now)) Plain (node_of body.now)) (λ _. and_then (typed_maybe (scoped (scoped v Plain (node_of condition.now)) Plain (node_of body.now)) Plain (option_node otherwise.entry)) (λ _. Ok Void)))) }
    ensures scopes { IfOk result (λ _. let v = scopes_of scopes.old in scopes_of scopes.new ≡ scoped_maybe (scoped (scoped v Plain (node_of condition.now)) Plain (node_of body.now)) Plain (option_node otherwise.entry)) }
    ensures table { IfOk result (λ _. let v = scopes_of scopes.old in table_of table.new ≡ filled_maybe (scoped (scoped v Plain (node_of condition.now)) Plain (node_of body.now)) Plain (option_node otherwise.entry) (filled (scoped v Plain (node_of condition.now)) Plain (node_of body.now) (filled v Plain (node_of condition.now) (table_of table.old)))) }
{
    type_tree(arena, scopes, Role::Plain, condition, table)?;
    type_tree(arena, scopes, Role::Plain, body, table)?;
    type_maybe(arena, scopes, Role::Plain, otherwise, table)?;
    Ok(Ty::Void)
}

/// Types a statement.
#[cycle(typing)]
pub(crate) fn type_statement<'a>(
    arena: &'a Arena,
    scopes: &mut Scopes<'a>,
    role: Role<'a>,
    kind: &Statement<'a>,
    table: &mut Table<'a>,
) -> Result<Ty<'a>, TypeFault>
    ensures gives { (p : Place) → Gives result (typed_statement (scopes_of scopes.old) (role_of role.entry) p (statement_shape kind.now)) }
    ensures scopes { IfOk result (λ _. scopes_of scopes.new ≡ closed (scopes_of scopes.old) (role_of role.entry) (nodes.Statement (statement_shape kind.now)) (within_statement (scopes_of scopes.old) (role_of role.entry) (statement_shape kind.now))) }
    ensures table { IfOk result (λ _. table_of table.new ≡ filled_statement (scopes_of scopes.old) (role_of role.entry) (statement_shape kind.now) (table_of table.old)) }
{
    match kind {
        Statement::Block { items } => type_block(arena, scopes, role, items, table),
        Statement::ExprStmt { value } => {
            type_maybe(arena, scopes, Role::Plain, *value, table)?;
            Ok(Ty::Void)
        }
        Statement::If {
            condition,
            then,
            otherwise,
        } => type_if(arena, scopes, condition, then, *otherwise, table),
        Statement::Switch { value, body } => type_both(arena, scopes, value, body, table),
        Statement::Case { value, body } => type_both(arena, scopes, value, body, table),
        Statement::Default { body } | Statement::Label { body, .. } => {
            type_tree(arena, scopes, Role::Plain, body, table)?;
            Ok(Ty::Void)
        }
    }
}
