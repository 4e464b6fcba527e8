//! The visit of iteration statements (ISO 9899:1990, 6.6.5).

ghost use Rattle.std.specs.Prelude.{◌≡◌, Ok, IfOk};
ghost use Rattle.c_tree.specs.declared.place.Place.{Place};
ghost use Rattle.c_tree.specs.Node as nodes;
ghost use Rattle.c_tree.specs.Views.{iteration_shape, node_of, option_node};
ghost use Rattle.type_rules.specs.Moves.{closed};
ghost use Rattle.type_rules.specs.Options.{◌>>=◌ as and_then};
ghost use Rattle.type_rules.specs.Roles.{Plain};
ghost use Rattle.type_rules.specs.Scopes.{deeper, leave};
ghost use Rattle.type_rules.specs.Ways.ScopesByCase.{scoped, scoped_maybe, within_iteration};
ghost use Rattle.type_rules.specs.Ways.TablesByCase.{filled, filled_iteration, filled_maybe};
ghost use Rattle.type_rules.specs.Ways.TypesByCase.{typed, typed_iteration, typed_maybe};
ghost use Rattle.type_rules.specs.Types.{Void};
ghost use Rattle.typed_unit.specs.Tables.{table_of};
ghost use Rattle.unit_typing.specs.Faults.{Gives};
ghost use Rattle.unit_typing.specs.Roles.{role_of};
ghost use Rattle.unit_typing.specs.Scopes.{scopes_of};

use super::{type_both, type_maybe, type_tree};
use crate::faults::TypeFault;
use crate::roles::Role;
use crate::scopes::Scopes;
use c_tree::{Arena, Iteration, Tree};
use type_rules::scopes_stay;
use type_values::Ty;
use typed_unit::Table;

/// Types an iteration statement.
#[cycle(typing)]
pub(crate) fn type_iteration<'a>(
    arena: &'a Arena,
    scopes: &mut Scopes<'a>,
    role: Role<'a>,
    kind: &Iteration<'a>,
    table: &mut Table<'a>,
) -> Result<Ty<'a>, TypeFault>
    ensures gives { (p : Place) → Gives result (typed_iteration (scopes_of scopes.old) (role_of role.entry) p (iteration_shape kind.now)) }
    ensures scopes { IfOk result (λ _. scopes_of scopes.new ≡ closed (scopes_of scopes.old) (role_of role.entry) (nodes.Iteration (iteration_shape kind.now)) (within_iteration (scopes_of scopes.old) (role_of role.entry) (iteration_shape kind.now))) }
    ensures table { IfOk result (λ _. table_of table.new ≡ filled_iteration (scopes_of scopes.old) (role_of role.entry) (iteration_shape kind.now) (table_of table.old)) }
{
    match kind {
        Iteration::While { condition, body } => type_both(arena, scopes, condition, body, table),
        Iteration::Do { body, condition } => type_both(arena, scopes, body, condition, table),
        Iteration::For {
            first,
            condition,
            step,
            body,
        } => type_for(arena, scopes, *first, *condition, *step, body, table),
        Iteration::ForDeclaration {
            declaration,
            condition,
            step,
            body,
        } => type_for_declaration(arena, scopes, declaration, *condition, *step, body, table),
    }
}

/// Types `for (first; condition; step) body` (6.6.5.3).
#[cycle(typing)]
fn type_for<'a>(
    arena: &'a Arena,
    scopes: &mut Scopes<'a>,
    first: Option<&Tree<'a>>,
    condition: Option<&Tree<'a>>,
    step: Option<&Tree<'a>>,
    body: &Tree<'a>,
    table: &mut Table<'a>,
) -> Result<Ty<'a>, TypeFault>
    ensures gives { let v = scopes_of scopes.old in Gives result (and_then (typed_maybe v Plain (option_node first.entry)) (λ _. and_then (typed_maybe (scoped_maybe v Plain (option_node first.entry)) Plain (option_node condition.entry)) (λ _. and_then (typed_maybe (scoped_maybe (scoped_maybe v Plain (option_node first.entry)) Plain (option_node condition.entry)) Plain (option_node step.entry)) (λ _. and_then (typed (scoped_maybe (scoped_maybe (scoped_maybe v Plain (option_node first.entry)) Plain (option_node condition.entry)) Plain (option_node step.entry)) Plain (node_of body.now)) (λ _. Ok Void))))) }
    ensures scopes { IfOk result (λ _. let v = scopes_of scopes.old in scopes_of scopes.new ≡ scoped (scoped_maybe (scoped_maybe (scoped_maybe v Plain (option_node first.entry)) Plain (option_node condition.entry)) Plain (option_node step.entry)) Plain (node_of body.now)) }
    ensures table { IfOk result (λ _. let v = scopes_of scopes.old in table_of table.new ≡ filled (scoped_maybe (scoped_maybe (scoped_maybe v Plain (option_node first.entry)) Plain (option_node condition.entry)) Plain (option_node step.entry)) Plain (node_of body.now) (filled_maybe (scoped_maybe (scoped_maybe v Plain (option_node first.entry)) Plain (option_node condition.entry)) Plain (option_node step.entry) (filled_maybe (scoped_maybe v Plain (option_node first.entry)) Plain (option_node condition.entry) (filled_maybe v Plain (option_node first.entry) (table_of table.old))))) }
{
    type_maybe(arena, scopes, Role::Plain, first, table)?;
    type_maybe(arena, scopes, Role::Plain, condition, table)?;
    type_maybe(arena, scopes, Role::Plain, step, table)?;
    type_tree(arena, scopes, Role::Plain, body, table)?;
    Ok(Ty::Void)
}

/// Types a `for` with a declaration (ISO 9899:1999, 6.8.5). What that declares is in force in the statement alone.
#[cycle(typing)]
fn type_for_declaration<'a>(
    arena: &'a Arena,
    scopes: &mut Scopes<'a>,
    declaration: &Tree<'a>,
    condition: Option<&Tree<'a>>,
    step: Option<&Tree<'a>>,
    body: &Tree<'a>,
    table: &mut Table<'a>,
) -> Result<Ty<'a>, TypeFault>
    ensures gives { let v = scopes_of scopes.old in Gives result (and_then (typed (deeper v) Plain (node_of declaration.now)) (λ _. and_then (typed_maybe (scoped (deeper v) Plain (node_of declaration.now)) Plain (option_node condition.entry)) (λ _. and_then (typed_maybe (scoped_maybe (scoped (deeper v) Plain (node_of declaration.now)) Plain (option_node condition.entry)) Plain (option_node step.entry)) (λ _. and_then (typed (scoped_maybe (scoped_maybe (scoped (deeper v) Plain (node_of declaration.now)) Plain (option_node condition.entry)) Plain (option_node step.entry)) Plain (node_of body.now)) (λ _. Ok Void))))) }
    ensures scopes { IfOk result (λ _. let v = scopes_of scopes.old in scopes_of scopes.new ≡ leave v (scoped (scoped_maybe (scoped_maybe (scoped (deeper v) Plain (node_of declaration.now)) Plain (option_node condition.entry)) Plain (option_node step.entry)) Plain (node_of body.now))) }
    ensures table { IfOk result (λ _. let v = scopes_of scopes.old in table_of table.new ≡ filled (scoped_maybe (scoped_maybe (scoped (deeper v) Plain (node_of declaration.now)) Plain (option_node condition.entry)) Plain (option_node step.entry)) Plain (node_of body.now) (filled_maybe (scoped_maybe (scoped (deeper v) Plain (node_of declaration.now)) Plain (option_node condition.entry)) Plain (option_node step.entry) (filled_maybe (scoped (deeper v) Plain (node_of declaration.now)) Plain (option_node condition.entry) (filled (deeper v) Plain (node_of declaration.now) (table_of table.old))))) }
{
    scopes_stay();
    let mark = scopes.enter()?;
    type_tree(arena, scopes, Role::Plain, declaration, table)?;
    type_maybe(arena, scopes, Role::Plain, condition, table)?;
    type_maybe(arena, scopes, Role::Plain, step, table)?;
    type_tree(arena, scopes, Role::Plain, body, table)?;
    scopes.leave(mark);
    Ok(Ty::Void)
}
