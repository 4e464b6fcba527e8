//! The visit of a tree in the order of its text: its type or its first fault, what it puts in force, and what is kept of it.
//!
//! Each group of kinds has a module of its own. What stands here goes from a tree to its group, and over several trees.

ghost use Rattle.std.specs.Prelude.{◌≡◌, Ok, IfOk};
ghost use Rattle.c_tree.specs.Views.{node_of, nodes_of, option_node};
ghost use Rattle.type_rules.specs.Options.{◌>>=◌ as and_then};
ghost use Rattle.type_rules.specs.Roles.{Plain};
ghost use Rattle.type_rules.specs.Ways.ScopesByCase.{scoped, scoped_maybe, scoped_each, scoped_beside};
ghost use Rattle.type_rules.specs.Ways.TablesByCase.{filled, filled_maybe, filled_each, filled_beside};
ghost use Rattle.type_rules.specs.Types.{Void};
ghost use Rattle.type_rules.specs.Ways.TypesByCase.{typed, typed_maybe, typed_each, typed_beside};
ghost use Rattle.typed_unit.specs.Tables.{table_of};
ghost use Rattle.unit_typing.specs.Faults.{Gives};
ghost use Rattle.unit_typing.specs.Roles.{role_of};
ghost use Rattle.unit_typing.specs.Scopes.{scopes_of};

mod declarators;
mod initializers;
mod iterations;
mod jumps;
mod keeping;
mod operations;
mod outer;
mod parts;
mod postfixes;
mod primaries;
mod rows;
mod specifiers;
mod statements;

use self::declarators::type_declarator;
use self::initializers::type_initializer;
use self::iterations::type_iteration;
use self::jumps::type_jump;
use self::keeping::{initializer_is_kept, keep, primary_var, specifier_is_kept};
use self::operations::type_operation;
use self::outer::type_outer;
use self::parts::type_part;
use self::primaries::type_primary;
use self::specifiers::type_specifier;
use self::statements::type_statement;
use crate::faults::TypeFault;
use crate::roles::Role;
use crate::scopes::Scopes;
use c_tree::{Arena, Kind, Tree, Trees};
use type_values::Ty;
use typed_unit::Table;

/// The type of a tree in its role. A node that is no expression, type name or declarator has none; `Void` stands for it.
#[cycle(typing)]
pub(crate) fn type_tree<'a>(
    arena: &'a Arena,
    scopes: &mut Scopes<'a>,
    role: Role<'a>,
    tree: &Tree<'a>,
    table: &mut Table<'a>,
) -> Result<Ty<'a>, TypeFault>
    ensures gives { Gives result (typed (scopes_of scopes.old) (role_of role.entry) (node_of tree.now)) }
    ensures scopes { IfOk result (λ _. scopes_of scopes.new ≡ scoped (scopes_of scopes.old) (role_of role.entry) (node_of tree.now)) }
    ensures table { IfOk result (λ _. table_of table.new ≡ filled (scopes_of scopes.old) (role_of role.entry) (node_of tree.now) (table_of table.old)) }
{
    match &tree.kind {
        Kind::Primary(kind) => {
            let var = primary_var(scopes, kind);
            let ty = type_primary(arena, scopes, role, tree.first, kind, table)?;
            keep(table, true, tree.id, var, ty)?;
            Ok(ty)
        }
        Kind::Operation(kind) => {
            let ty = type_operation(arena, scopes, role, tree.first, kind, table)?;
            keep(table, true, tree.id, None, ty)?;
            Ok(ty)
        }
        Kind::Initializer(kind) => {
            let ty = type_initializer(arena, scopes, role, kind, table)?;
            keep(table, initializer_is_kept(kind), tree.id, None, ty)?;
            Ok(ty)
        }
        Kind::Specifier(kind) => {
            let ty = type_specifier(arena, scopes, role, kind, table)?;
            keep(table, specifier_is_kept(kind), tree.id, None, ty)?;
            Ok(ty)
        }
        Kind::Declarator(kind) => {
            type_declarator(arena, scopes, role, tree.id, tree.first, kind, table)
        }
        Kind::Part(kind) => type_part(arena, scopes, role, kind, table),
        Kind::Outer(kind) => type_outer(arena, scopes, role, kind, table),
        Kind::Statement(kind) => type_statement(arena, scopes, role, kind, table),
        Kind::Iteration(kind) => type_iteration(arena, scopes, role, kind, table),
        Kind::Jump(kind) => type_jump(arena, scopes, role, kind, table),
    }
}

/// The type of a tree that may be missing.
#[cycle(typing)]
fn type_maybe<'a>(
    arena: &'a Arena,
    scopes: &mut Scopes<'a>,
    role: Role<'a>,
    tree: Option<&Tree<'a>>,
    table: &mut Table<'a>,
) -> Result<Ty<'a>, TypeFault>
    ensures gives { Gives result (typed_maybe (scopes_of scopes.old) (role_of role.entry) (option_node tree.entry)) }
    ensures scopes { IfOk result (λ _. scopes_of scopes.new ≡ scoped_maybe (scopes_of scopes.old) (role_of role.entry) (option_node tree.entry)) }
    ensures table { IfOk result (λ _. table_of table.new ≡ filled_maybe (scopes_of scopes.old) (role_of role.entry) (option_node tree.entry) (table_of table.old)) }
{
    match tree {
        None => Ok(Ty::Void),
        Some(tree) => type_tree(arena, scopes, role, tree, table),
    }
}

/// Types two trees one after the other, which have no type together.
#[cycle(typing)]
fn type_both<'a>(
    arena: &'a Arena,
    scopes: &mut Scopes<'a>,
    first: &Tree<'a>,
    second: &Tree<'a>,
    table: &mut Table<'a>,
) -> Result<Ty<'a>, TypeFault>
    ensures gives { let v = scopes_of scopes.old in Gives result (and_then (typed v Plain (node_of first.now)) (λ _. and_then (typed (scoped v Plain (node_of first.now)) Plain (node_of second.now)) (λ _. Ok Void))) }
    ensures scopes { IfOk result (λ _. let v = scopes_of scopes.old in scopes_of scopes.new ≡ scoped (scoped v Plain (node_of first.now)) Plain (node_of second.now)) }
    ensures table { IfOk result (λ _. let v = scopes_of scopes.old in table_of table.new ≡ filled (scoped v Plain (node_of first.now)) Plain (node_of second.now) (filled v Plain (node_of first.now) (table_of table.old))) }
{
    type_tree(arena, scopes, Role::Plain, first, table)?;
    type_tree(arena, scopes, Role::Plain, second, table)?;
    Ok(Ty::Void)
}

/// Types trees one after the other, all in one role.
#[cycle(typing)]
#[tactic(auto, using(crate::proofs::Steps::steps))]
fn type_each<'a>(
    arena: &'a Arena,
    scopes: &mut Scopes<'a>,
    role: Role<'a>,
    trees: &Trees<'a>,
    table: &mut Table<'a>,
) -> Result<Ty<'a>, TypeFault>
    ensures gives { Gives result (typed_each (scopes_of scopes.old) (role_of role.entry) (nodes_of trees.now)) }
    ensures scopes { IfOk result (λ _. scopes_of scopes.new ≡ scoped_each (scopes_of scopes.old) (role_of role.entry) (nodes_of trees.now)) }
    ensures table { IfOk result (λ _. table_of table.new ≡ filled_each (scopes_of scopes.old) (role_of role.entry) (nodes_of trees.now) (table_of table.old)) }
{
    for tree in trees.all {
        type_tree(arena, scopes, role, tree, table)?;
    }
    Ok(Ty::Void)
}

/// Types trees one after the other, the first in this role: the suffix beside a name.
#[cycle(typing)]
#[tactic(auto, using(crate::proofs::Steps::steps))]
fn type_beside<'a>(
    arena: &'a Arena,
    scopes: &mut Scopes<'a>,
    role: Role<'a>,
    trees: &Trees<'a>,
    table: &mut Table<'a>,
) -> Result<Ty<'a>, TypeFault>
    ensures gives { Gives result (typed_beside (scopes_of scopes.old) (role_of role.entry) (nodes_of trees.now)) }
    ensures scopes { IfOk result (λ _. scopes_of scopes.new ≡ scoped_beside (scopes_of scopes.old) (role_of role.entry) (nodes_of trees.now)) }
    ensures table { IfOk result (λ _. table_of table.new ≡ filled_beside (scopes_of scopes.old) (role_of role.entry) (nodes_of trees.now) (table_of table.old)) }
{
    let mut next = role;
    for tree in trees.all {
        type_tree(arena, scopes, next, tree, table)?;
        next = Role::Plain;
    }
    Ok(Ty::Void)
}
