//! Nodes of statements (ISO 9899:1990, 6.6), out of parts that were read.

ghost use Rattle.std.specs.Prelude.{◌≡◌, ◌+◌, ◌<◌, ◌≤◌, ◌^◌, length};
ghost use Rattle.c_tree.specs.Symbol.{symbol_of, symbols_of};
ghost use Rattle.c_tree.specs.Syntax as kinds;
ghost use Rattle.c_tree.specs.Height.{height_of, height_maybe, height_in};
ghost use Rattle.c_tree.specs.Forget.{view, maybe_view, list_view};
ghost use Rattle.c_tree.specs.Node as nodes;
ghost use Rattle.c_tree.specs.Views.{node_of, option_node, nodes_of};
ghost use Rattle.c_grammar.specs.Found.{made};
ghost use Rattle.c_expr.specs.Standing.{Makes};
ghost use Rattle.c_expr.specs.Gives.{Gives, left};

use crate::parts::MaybeRead;
use c_expr::{ExprFault, Read, ReadList, node};
use c_tree::{Arena, Iteration, Jump, Kind, Place, Statement, Token};

/// `{ items }`, with its last brace (6.6.2).
pub(crate) fn block_of<'a>(
    arena: &'a Arena,
    first: Place,
    items: ReadList<'a>,
    room: u32,
    next: &mut u32,
) -> Result<Read<'a>, ExprFault>
    requires items { items.height ≡ height_in (list_view items.trees) }
    requires ids { next.old + 1 < 2 ^ 32 }
    ensures found { Gives result (made room (kinds.Statement (kinds.Block (list_view items.entry.trees))) (symbols_of items.entry.rest.now)) }
    ensures node { Makes result next.old next.new first (nodes.Statement (nodes.Block (nodes_of items.entry.trees))) items.entry.rest.now }
    ensures ids { (next.old ≤ next.new) × (next.new ≤ next.old + 1) × (left result ≤ length items.entry.rest.now) }
{
    let kind = Kind::Statement(Statement::Block { items: items.trees });
    node(arena, kind, first, items.height, items.rest, room, next)
}

/// `value;` or `;` (6.6.3).
pub(crate) fn expression_statement_of<'a>(
    arena: &'a Arena,
    first: Place,
    value: MaybeRead<'a>,
    room: u32,
    next: &mut u32,
) -> Result<Read<'a>, ExprFault>
    requires value { value.height ≡ height_maybe (maybe_view value.tree) }
    requires ids { next.old + 1 < 2 ^ 32 }
    ensures found { Gives result (made room (kinds.Statement (kinds.ExprStmt (maybe_view value.entry.tree))) (symbols_of value.entry.rest.now)) }
    ensures node { Makes result next.old next.new first (nodes.Statement (nodes.ExprStmt (option_node value.entry.tree))) value.entry.rest.now }
    ensures ids { (next.old ≤ next.new) × (next.new ≤ next.old + 1) × (left result ≤ length value.entry.rest.now) }
{
    let kind = Kind::Statement(Statement::ExprStmt { value: value.tree });
    node(arena, kind, first, value.height, value.rest, room, next)
}

/// `if (condition) then` (6.6.4.1).
pub(crate) fn if_of<'a>(
    arena: &'a Arena,
    first: Place,
    condition: Read<'a>,
    then: Read<'a>,
    room: u32,
    next: &mut u32,
) -> Result<Read<'a>, ExprFault>
    requires condition { condition.height ≡ height_of (view condition.tree.now) }
    requires then { then.height ≡ height_of (view then.tree.now) }
    requires ids { next.old + 1 < 2 ^ 32 }
    ensures found { Gives result (made room (kinds.Statement (kinds.If (view condition.entry.tree.now) (view then.entry.tree.now) kinds.absent)) (symbols_of then.entry.rest.now)) }
    ensures node { Makes result next.old next.new first (nodes.Statement (nodes.If (node_of condition.entry.tree.now) (node_of then.entry.tree.now) nodes.absent)) then.entry.rest.now }
    ensures ids { (next.old ≤ next.new) × (next.new ≤ next.old + 1) × (left result ≤ length then.entry.rest.now) }
{
    let highest = condition.height.max(then.height);
    let kind = Kind::Statement(Statement::If {
        condition: condition.tree,
        then: then.tree,
        otherwise: None,
    });
    node(arena, kind, first, highest, then.rest, room, next)
}

/// `if (condition) then else otherwise` (6.6.4.1).
pub(crate) fn if_else_of<'a>(
    arena: &'a Arena,
    first: Place,
    condition: Read<'a>,
    then: Read<'a>,
    otherwise: Read<'a>,
    room: u32,
    next: &mut u32,
) -> Result<Read<'a>, ExprFault>
    requires condition { condition.height ≡ height_of (view condition.tree.now) }
    requires then { then.height ≡ height_of (view then.tree.now) }
    requires otherwise { otherwise.height ≡ height_of (view otherwise.tree.now) }
    requires ids { next.old + 1 < 2 ^ 32 }
    ensures found { Gives result (made room (kinds.Statement (kinds.If (view condition.entry.tree.now) (view then.entry.tree.now) (kinds.present (view otherwise.entry.tree.now)))) (symbols_of otherwise.entry.rest.now)) }
    ensures node { Makes result next.old next.new first (nodes.Statement (nodes.If (node_of condition.entry.tree.now) (node_of then.entry.tree.now) (nodes.present (node_of otherwise.entry.tree.now)))) otherwise.entry.rest.now }
    ensures ids { (next.old ≤ next.new) × (next.new ≤ next.old + 1) × (left result ≤ length otherwise.entry.rest.now) }
{
    let highest = condition.height.max(then.height).max(otherwise.height);
    let kind = Kind::Statement(Statement::If {
        condition: condition.tree,
        then: then.tree,
        otherwise: Some(otherwise.tree),
    });
    node(arena, kind, first, highest, otherwise.rest, room, next)
}

/// `switch (value) body` (6.6.4.2).
pub(crate) fn switch_of<'a>(
    arena: &'a Arena,
    first: Place,
    value: Read<'a>,
    body: Read<'a>,
    room: u32,
    next: &mut u32,
) -> Result<Read<'a>, ExprFault>
    requires value { value.height ≡ height_of (view value.tree.now) }
    requires body { body.height ≡ height_of (view body.tree.now) }
    requires ids { next.old + 1 < 2 ^ 32 }
    ensures found { Gives result (made room (kinds.Statement (kinds.Switch (view value.entry.tree.now) (view body.entry.tree.now))) (symbols_of body.entry.rest.now)) }
    ensures node { Makes result next.old next.new first (nodes.Statement (nodes.Switch (node_of value.entry.tree.now) (node_of body.entry.tree.now))) body.entry.rest.now }
    ensures ids { (next.old ≤ next.new) × (next.new ≤ next.old + 1) × (left result ≤ length body.entry.rest.now) }
{
    let highest = value.height.max(body.height);
    let kind = Kind::Statement(Statement::Switch {
        value: value.tree,
        body: body.tree,
    });
    node(arena, kind, first, highest, body.rest, room, next)
}

/// `case value: body` (6.6.1).
pub(crate) fn case_of<'a>(
    arena: &'a Arena,
    first: Place,
    value: Read<'a>,
    body: Read<'a>,
    room: u32,
    next: &mut u32,
) -> Result<Read<'a>, ExprFault>
    requires value { value.height ≡ height_of (view value.tree.now) }
    requires body { body.height ≡ height_of (view body.tree.now) }
    requires ids { next.old + 1 < 2 ^ 32 }
    ensures found { Gives result (made room (kinds.Statement (kinds.Case (view value.entry.tree.now) (view body.entry.tree.now))) (symbols_of body.entry.rest.now)) }
    ensures node { Makes result next.old next.new first (nodes.Statement (nodes.Case (node_of value.entry.tree.now) (node_of body.entry.tree.now))) body.entry.rest.now }
    ensures ids { (next.old ≤ next.new) × (next.new ≤ next.old + 1) × (left result ≤ length body.entry.rest.now) }
{
    let highest = value.height.max(body.height);
    let kind = Kind::Statement(Statement::Case {
        value: value.tree,
        body: body.tree,
    });
    node(arena, kind, first, highest, body.rest, room, next)
}

/// `default: body` (6.6.1).
pub(crate) fn default_of<'a>(
    arena: &'a Arena,
    first: Place,
    body: Read<'a>,
    room: u32,
    next: &mut u32,
) -> Result<Read<'a>, ExprFault>
    requires body { body.height ≡ height_of (view body.tree.now) }
    requires ids { next.old + 1 < 2 ^ 32 }
    ensures found { Gives result (made room (kinds.Statement (kinds.Default (view body.entry.tree.now))) (symbols_of body.entry.rest.now)) }
    ensures node { Makes result next.old next.new first (nodes.Statement (nodes.Default (node_of body.entry.tree.now))) body.entry.rest.now }
    ensures ids { (next.old ≤ next.new) × (next.new ≤ next.old + 1) × (left result ≤ length body.entry.rest.now) }
{
    let kind = Kind::Statement(Statement::Default { body: body.tree });
    node(arena, kind, first, body.height, body.rest, room, next)
}

/// `label: body` (6.6.1).
pub(crate) fn label_of<'a>(
    arena: &'a Arena,
    label: &'a Token,
    body: Read<'a>,
    room: u32,
    next: &mut u32,
) -> Result<Read<'a>, ExprFault>
    requires body { body.height ≡ height_of (view body.tree.now) }
    requires ids { next.old + 1 < 2 ^ 32 }
    ensures found { Gives result (made room (kinds.Statement (kinds.Label (symbol_of label.now) (view body.entry.tree.now))) (symbols_of body.entry.rest.now)) }
    ensures node { Makes result next.old next.new label.now.place (nodes.Statement (nodes.Label label.now (node_of body.entry.tree.now))) body.entry.rest.now }
    ensures ids { (next.old ≤ next.new) × (next.new ≤ next.old + 1) × (left result ≤ length body.entry.rest.now) }
{
    let kind = Kind::Statement(Statement::Label {
        label,
        body: body.tree,
    });
    node(arena, kind, label.place, body.height, body.rest, room, next)
}

/// `while (condition) body` (6.6.5.1).
pub(crate) fn while_of<'a>(
    arena: &'a Arena,
    first: Place,
    condition: Read<'a>,
    body: Read<'a>,
    room: u32,
    next: &mut u32,
) -> Result<Read<'a>, ExprFault>
    requires condition { condition.height ≡ height_of (view condition.tree.now) }
    requires body { body.height ≡ height_of (view body.tree.now) }
    requires ids { next.old + 1 < 2 ^ 32 }
    ensures found { Gives result (made room (kinds.Iteration (kinds.While (view condition.entry.tree.now) (view body.entry.tree.now))) (symbols_of body.entry.rest.now)) }
    ensures node { Makes result next.old next.new first (nodes.Iteration (nodes.While (node_of condition.entry.tree.now) (node_of body.entry.tree.now))) body.entry.rest.now }
    ensures ids { (next.old ≤ next.new) × (next.new ≤ next.old + 1) × (left result ≤ length body.entry.rest.now) }
{
    let highest = condition.height.max(body.height);
    let kind = Kind::Iteration(Iteration::While {
        condition: condition.tree,
        body: body.tree,
    });
    node(arena, kind, first, highest, body.rest, room, next)
}

/// `do body while (condition);` in front of `rest` (6.6.5.2).
pub(crate) fn do_of<'a>(
    arena: &'a Arena,
    first: Place,
    body: Read<'a>,
    condition: Read<'a>,
    rest: &'a [Token],
    room: u32,
    next: &mut u32,
) -> Result<Read<'a>, ExprFault>
    requires body { body.height ≡ height_of (view body.tree.now) }
    requires condition { condition.height ≡ height_of (view condition.tree.now) }
    requires ids { next.old + 1 < 2 ^ 32 }
    ensures found { Gives result (made room (kinds.Iteration (kinds.Do (view body.entry.tree.now) (view condition.entry.tree.now))) (symbols_of rest.now)) }
    ensures node { Makes result next.old next.new first (nodes.Iteration (nodes.Do (node_of body.entry.tree.now) (node_of condition.entry.tree.now))) rest.now }
    ensures ids { (next.old ≤ next.new) × (next.new ≤ next.old + 1) × (left result ≤ length rest.now) }
{
    let highest = body.height.max(condition.height);
    let kind = Kind::Iteration(Iteration::Do {
        body: body.tree,
        condition: condition.tree,
    });
    node(arena, kind, first, highest, rest, room, next)
}

/// `for (start; condition; step) body` (6.6.5.3).
pub(crate) fn for_of<'a>(
    arena: &'a Arena,
    first: Place,
    start: MaybeRead<'a>,
    condition: MaybeRead<'a>,
    step: MaybeRead<'a>,
    body: Read<'a>,
    room: u32,
    next: &mut u32,
) -> Result<Read<'a>, ExprFault>
    requires start { start.height ≡ height_maybe (maybe_view start.tree) }
    requires condition { condition.height ≡ height_maybe (maybe_view condition.tree) }
    requires step { step.height ≡ height_maybe (maybe_view step.tree) }
    requires body { body.height ≡ height_of (view body.tree.now) }
    requires ids { next.old + 1 < 2 ^ 32 }
    ensures found { Gives result (made room (kinds.Iteration (kinds.For (maybe_view start.entry.tree) (maybe_view condition.entry.tree) (maybe_view step.entry.tree) (view body.entry.tree.now))) (symbols_of body.entry.rest.now)) }
    ensures node { Makes result next.old next.new first (nodes.Iteration (nodes.For (option_node start.entry.tree) (option_node condition.entry.tree) (option_node step.entry.tree) (node_of body.entry.tree.now))) body.entry.rest.now }
    ensures ids { (next.old ≤ next.new) × (next.new ≤ next.old + 1) × (left result ≤ length body.entry.rest.now) }
{
    let highest = start
        .height
        .max(condition.height)
        .max(step.height)
        .max(body.height);
    let kind = Kind::Iteration(Iteration::For {
        first: start.tree,
        condition: condition.tree,
        step: step.tree,
        body: body.tree,
    });
    node(arena, kind, first, highest, body.rest, room, next)
}

/// `return value;` or `return;` (6.6.6.4).
pub(crate) fn return_of<'a>(
    arena: &'a Arena,
    first: Place,
    value: MaybeRead<'a>,
    room: u32,
    next: &mut u32,
) -> Result<Read<'a>, ExprFault>
    requires value { value.height ≡ height_maybe (maybe_view value.tree) }
    requires ids { next.old + 1 < 2 ^ 32 }
    ensures found { Gives result (made room (kinds.Jump (kinds.Return (maybe_view value.entry.tree))) (symbols_of value.entry.rest.now)) }
    ensures node { Makes result next.old next.new first (nodes.Jump (nodes.Return (option_node value.entry.tree))) value.entry.rest.now }
    ensures ids { (next.old ≤ next.new) × (next.new ≤ next.old + 1) × (left result ≤ length value.entry.rest.now) }
{
    let kind = Kind::Jump(Jump::Return { value: value.tree });
    node(arena, kind, first, value.height, value.rest, room, next)
}
