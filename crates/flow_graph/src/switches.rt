//! Where a `switch` goes on (ISO 9899:1990, 6.6.4.2): at its labels, and behind it if it has no `default`.

ghost use Rattle.std.specs.Prelude.{◌≡◌, ◌++◌, not, OnOk};
ghost use Rattle.c_tree.specs.Views.{node_of, nodes_of, option_node, statement_shape, iteration_shape};
ghost use Rattle.flow_graph.specs.CPaths.Listing.{if_so, has_default, has_default_in};
ghost use Rattle.flow_graph.specs.CPaths.TreeFlow.{flow_of, statement_flow, iteration_flow, maybe_flow, flows_of};
ghost use Rattle.flow_graph.specs.Defaults.{silent, nowhere};

use c_tree::{Iteration, Jump, Kind, Statement, Tree, Trees};
use std::alloc::AllocError;

/// Whether the innermost `switch` round a statement has a `default` in it.
#[cycle(defaults)]
pub(crate) fn has_default(tree: &Tree) -> bool
    ensures { result ≡ has_default (flow_of silent nowhere (node_of tree.now)) }
{
    match &tree.kind {
        Kind::Statement(kind) => in_statement(kind),
        Kind::Iteration(kind) => in_iteration(kind),
        Kind::Jump(Jump::Goto { .. } | Jump::Continue | Jump::Break | Jump::Return { .. }) => false,
        Kind::Primary(_)
        | Kind::Operation(_)
        | Kind::Initializer(_)
        | Kind::Specifier(_)
        | Kind::Declarator(_)
        | Kind::Part(_)
        | Kind::Outer(_) => false,
    }
}

#[cycle(defaults)]
fn in_statement(kind: &Statement) -> bool
    ensures { result ≡ has_default (statement_flow silent nowhere (statement_shape kind.now)) }
{
    match kind {
        Statement::Block { items } => in_some(items),
        Statement::If {
            then,
            otherwise,
            ..
        } => has_default(then) || in_optional(*otherwise),
        Statement::Case { body, .. } | Statement::Label { body, .. } => has_default(body),
        Statement::Default { .. } => true,
        Statement::ExprStmt { .. } | Statement::Switch { .. } => false,
    }
}

#[cycle(defaults)]
fn in_iteration(kind: &Iteration) -> bool
    ensures { result ≡ has_default (iteration_flow silent nowhere (iteration_shape kind.now)) }
{
    match kind {
        Iteration::While { body, .. }
        | Iteration::Do { body, .. }
        | Iteration::For { body, .. }
        | Iteration::ForDeclaration { body, .. } => has_default(body),
    }
}

#[cycle(defaults)]
fn in_optional(tree: Option<&Tree>) -> bool
    ensures { result ≡ has_default (maybe_flow silent nowhere (option_node tree.entry)) }
{
    match tree {
        None => false,
        Some(tree) => has_default(tree),
    }
}

#[tactic(auto, using(crate::proofs::Steps::steps))]
#[cycle(defaults)]
fn in_some(trees: &Trees) -> bool
    ensures { result ≡ has_default_in (flows_of silent nowhere (nodes_of trees.now)) }
{
    for tree in trees.all {
        if has_default(tree) {
            return true;
        }
    }
    false
}

/// Adds the block behind a `switch` to those of its labels, if its body has no `default`.
pub(crate) fn complete(cases: &mut Vec<u32>, body: &Tree, next: u32) -> Result<(), AllocError>
    ensures { OnOk result (cases.new.items ≡ cases.old.items ++ if_so (not (has_default (flow_of silent nowhere (node_of body.now)))) next) }
{
    if !has_default(body) {
        cases.push(next)?;
    }
    Ok(())
}
