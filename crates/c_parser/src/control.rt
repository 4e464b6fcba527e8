//! Which jumps and labels may stand in a function's body (ISO 9899:1990, 6.6.1, 6.6.4.2, 6.6.6).

ghost use Rattle.std.specs.Prelude.{◌≡◌, min, IfOk};
ghost use Rattle.c_tree.specs.Symbol.{symbol_of};
ghost use Rattle.c_tree.specs.Forget.{view, maybe_view, list_view, statement_view, iteration_view, jump_view};
ghost use Rattle.c_grammar.specs.Names.{name_in};
ghost use Rattle.c_grammar.specs.UnitGrammar.Control.{labels, plain_labels, iteration_labels, else_labels, all_labels, defaults, plain_defaults, iteration_defaults, else_defaults, all_defaults, is_label_of, may_stand, plain_may_stand, iteration_may_stand, jump_may_stand, else_may_stand, all_may_stand, is_controlled};
ghost use Rattle.c_parser.specs.Ways.Gathered.{gathered, known_if};
ghost use Rattle.c_parser.specs.Around.{surroundings};

use crate::labels::{Labels, add_label, name_in};
use c_tree::{Iteration, Jump, Kind, Statement, Token, Tree, Trees};
use std::alloc::{AllocError, Global};

/// What stands around a statement.
#[derive(Clone, Copy)]
struct Around {
    in_loop: bool,
    in_switch: bool,
}

/// Adds the labels in a statement. Whether each is new.
#[cycle(labels)]
#[tactic(auto, using(crate::proofs::Gathering::gathers))]
fn add_labels(tree: &Tree, known: &mut Labels) -> Result<bool, AllocError>
    ensures { IfOk result (λ fresh. gathered known.old (labels (view tree.now)) ≡ known_if fresh known.new) }
{
    match &tree.kind {
        Kind::Statement(kind) => add_labels_of_statement(kind, known),
        Kind::Iteration(kind) => add_labels_of_iteration(kind, known),
        _ => Ok(true),
    }
}

#[cycle(labels)]
#[tactic(auto, using(crate::proofs::Gathering::gathers))]
fn add_labels_of_statement(kind: &Statement, known: &mut Labels) -> Result<bool, AllocError>
    ensures { IfOk result (λ fresh. gathered known.old (plain_labels (statement_view kind.now)) ≡ known_if fresh known.new) }
{
    match kind {
        Statement::Block { items } => add_labels_of_all(items, known),
        Statement::ExprStmt { .. } => Ok(true),
        Statement::If {
            then,
            otherwise,
            ..
        } => {
            if !add_labels(then, known)? {
                return Ok(false);
            }
            add_labels_of_optional(*otherwise, known)
        }
        Statement::Switch { body, .. }
        | Statement::Case { body, .. }
        | Statement::Default { body } => add_labels(body, known),
        Statement::Label { label, body } => {
            if !add_label(label, known)? {
                return Ok(false);
            }
            add_labels(body, known)
        }
    }
}

#[cycle(labels)]
#[tactic(auto, using(crate::proofs::Gathering::gathers))]
fn add_labels_of_iteration(kind: &Iteration, known: &mut Labels) -> Result<bool, AllocError>
    ensures { IfOk result (λ fresh. gathered known.old (iteration_labels (iteration_view kind.now)) ≡ known_if fresh known.new) }
{
    match kind {
        Iteration::While { body, .. }
        | Iteration::Do { body, .. }
        | Iteration::For { body, .. }
        | Iteration::ForDeclaration { body, .. } => add_labels(body, known),
    }
}

#[cycle(labels)]
#[tactic(auto, using(crate::proofs::Gathering::gathers))]
fn add_labels_of_optional(tree: Option<&Tree>, known: &mut Labels) -> Result<bool, AllocError>
    ensures { IfOk result (λ fresh. gathered known.old (else_labels (maybe_view tree.entry)) ≡ known_if fresh known.new) }
{
    match tree {
        None => Ok(true),
        Some(tree) => add_labels(tree, known),
    }
}

#[cycle(labels)]
#[tactic(auto, using(crate::proofs::Lists::lists, crate::proofs::Gathering::gathers))]
fn add_labels_of_all(trees: &Trees, known: &mut Labels) -> Result<bool, AllocError>
    ensures { IfOk result (λ fresh. gathered known.old (all_labels (list_view trees.now)) ≡ known_if fresh known.new) }
{
    for tree in trees.all {
        if !add_labels(tree, known)? {
            return Ok(false);
        }
    }
    Ok(true)
}

/// How many `default` belong to the `switch` around a statement, where two stand for any more.
#[cycle(defaults)]
fn defaults(tree: &Tree) -> u32
    ensures { result ≡ min 2 (defaults (view tree.now)) }
{
    match &tree.kind {
        Kind::Statement(kind) => defaults_of_statement(kind),
        Kind::Iteration(kind) => defaults_of_iteration(kind),
        _ => 0,
    }
}

#[cycle(defaults)]
fn defaults_of_statement(kind: &Statement) -> u32
    ensures { result ≡ min 2 (plain_defaults (statement_view kind.now)) }
{
    match kind {
        Statement::Block { items } => defaults_of_all(items),
        Statement::ExprStmt { .. } | Statement::Switch { .. } => 0,
        Statement::If {
            then,
            otherwise,
            ..
        } => (defaults(then) + defaults_of_optional(*otherwise)).min(2),
        Statement::Case { body, .. } | Statement::Label { body, .. } => defaults(body),
        Statement::Default { body } => (defaults(body) + 1).min(2),
    }
}

#[cycle(defaults)]
fn defaults_of_iteration(kind: &Iteration) -> u32
    ensures { result ≡ min 2 (iteration_defaults (iteration_view kind.now)) }
{
    match kind {
        Iteration::While { body, .. }
        | Iteration::Do { body, .. }
        | Iteration::For { body, .. }
        | Iteration::ForDeclaration { body, .. } => defaults(body),
    }
}

#[cycle(defaults)]
fn defaults_of_optional(tree: Option<&Tree>) -> u32
    ensures { result ≡ min 2 (else_defaults (maybe_view tree.entry)) }
{
    match tree {
        None => 0,
        Some(tree) => defaults(tree),
    }
}

#[cycle(defaults)]
#[tactic(auto, using(crate::proofs::Lists::lists))]
fn defaults_of_all(trees: &Trees) -> u32
    ensures { result ≡ min 2 (all_defaults (list_view trees.now)) }
{
    let mut count = 0u32;
    for tree in trees.all {
        count = (count + defaults(tree)).min(2);
    }
    count
}

/// Whether a statement may stand there, in a function with these labels.
#[cycle(standing)]
fn may_stand(tree: &Tree, around: Around, labels: &Labels) -> bool
    ensures { result ≡ may_stand (surroundings around labels.now) (view tree.now) }
{
    match &tree.kind {
        Kind::Statement(kind) => statement_may_stand(kind, around, labels),
        Kind::Iteration(kind) => iteration_may_stand(kind, around, labels),
        Kind::Jump(kind) => jump_may_stand(kind, around, labels),
        _ => true,
    }
}

#[cycle(standing)]
fn statement_may_stand(kind: &Statement, around: Around, labels: &Labels) -> bool
    ensures { result ≡ plain_may_stand (surroundings around labels.now) (statement_view kind.now) }
{
    match kind {
        Statement::Block { items } => all_may_stand(items, around, labels),
        Statement::ExprStmt { .. } => true,
        Statement::If {
            then,
            otherwise,
            ..
        } => may_stand(then, around, labels) && optional_may_stand(*otherwise, around, labels),
        Statement::Switch { body, .. } => {
            let inside = Around {
                in_switch: true,
                ..around
            };
            defaults(body) <= 1 && may_stand(body, inside, labels)
        }
        Statement::Case { body, .. } | Statement::Default { body } => around.in_switch
            && may_stand(body, around, labels),
        Statement::Label { body, .. } => may_stand(body, around, labels),
    }
}

#[cycle(standing)]
fn iteration_may_stand(kind: &Iteration, around: Around, labels: &Labels) -> bool
    ensures { result ≡ iteration_may_stand (surroundings around labels.now) (iteration_view kind.now) }
{
    let inside = Around {
        in_loop: true,
        ..around
    };
    match kind {
        Iteration::While { body, .. }
        | Iteration::Do { body, .. }
        | Iteration::For { body, .. }
        | Iteration::ForDeclaration { body, .. } => may_stand(body, inside, labels),
    }
}

fn jump_may_stand(kind: &Jump, around: Around, labels: &Labels) -> bool
    ensures { result ≡ jump_may_stand (surroundings around labels.now) (jump_view kind.now) }
{
    match kind {
        Jump::Goto { label } => is_label_of(labels, label),
        Jump::Continue => around.in_loop,
        Jump::Break => around.in_loop || around.in_switch,
        Jump::Return { .. } => true,
    }
}

/// Whether the token is one of these labels.
fn is_label_of(labels: &Labels, token: &Token) -> bool
    ensures { result ≡ is_label_of labels.now (name_in (symbol_of token.now)) }
{
    match name_in(token) {
        None => false,
        Some(name) => labels.has(name),
    }
}

#[cycle(standing)]
fn optional_may_stand(tree: Option<&Tree>, around: Around, labels: &Labels) -> bool
    ensures { result ≡ else_may_stand (surroundings around labels.now) (maybe_view tree.entry) }
{
    match tree {
        None => true,
        Some(tree) => may_stand(tree, around, labels),
    }
}

#[cycle(standing)]
#[tactic(auto, using(crate::proofs::Lists::lists))]
fn all_may_stand(trees: &Trees, around: Around, labels: &Labels) -> bool
    ensures { result ≡ all_may_stand (surroundings around labels.now) (list_view trees.now) }
{
    for tree in trees.all {
        if !may_stand(tree, around, labels) {
            return false;
        }
    }
    true
}

/// Whether all labels in a function's body differ, and each jump and each label of a `switch` stands where it may.
pub(crate) fn is_controlled(alloc: Global, body: &Tree) -> Result<bool, AllocError>
    ensures { IfOk result (λ controlled. controlled ≡ is_controlled (view body.now)) }
{
    let mut labels = Labels::new(alloc);
    if !add_labels(body, &mut labels)? {
        return Ok(false);
    }
    let nowhere = Around {
        in_loop: false,
        in_switch: false,
    };
    Ok(may_stand(body, nowhere, &labels))
}
