//! Nodes of initial values, declarations and external definitions, out of parts that were read.

ghost use Rattle.std.specs.Prelude.{◌≡◌, ◌+◌, ◌<◌, ◌≤◌, ◌^◌, length};
ghost use Rattle.c_tree.specs.Symbol.{symbols_of};
ghost use Rattle.c_tree.specs.Syntax as kinds;
ghost use Rattle.c_tree.specs.Height.{height_of, height_in};
ghost use Rattle.c_tree.specs.Forget.{view, list_view};
ghost use Rattle.c_tree.specs.Node as nodes;
ghost use Rattle.c_tree.specs.Views.{node_of, nodes_of};
ghost use Rattle.c_grammar.specs.Found.{made};
ghost use Rattle.c_expr.specs.Gives.{Gives, left};
ghost use Rattle.c_expr.specs.Standing.{Makes};

use crate::parts::ReadCommaList;
use c_expr::{ExprFault, Read, ReadList, node};
use c_tree::{Arena, Initializer, Kind, Outer, Place, Token};

/// Initial values in braces (ISO 9899:1990, 6.5.7).
pub(crate) fn braces_of<'a>(
    arena: &'a Arena,
    first: Place,
    elements: ReadCommaList<'a>,
    room: u32,
    next: &mut u32,
) -> Result<Read<'a>, ExprFault>
    requires elements { elements.height ≡ height_in (list_view elements.trees) }
    requires ids { next.old + 1 < 2 ^ 32 }
    ensures found { Gives result (made room (kinds.Initializer (kinds.Braces (list_view elements.entry.trees) elements.entry.comma)) (symbols_of elements.entry.rest.now)) }
    ensures node { Makes result next.old next.new first (nodes.Initializer (nodes.Braces (nodes_of elements.entry.trees) elements.entry.comma)) elements.entry.rest.now }
    ensures ids { (next.old ≤ next.new) × (next.new ≤ next.old + 1) × (left result ≤ length elements.entry.rest.now) }
{
    let kind = Kind::Initializer(Initializer::Braces {
        elements: elements.trees,
        comma: elements.comma,
    });
    node(
        arena,
        kind,
        first,
        elements.height,
        elements.rest,
        room,
        next,
    )
}

/// A declarator with its initial value; `name` is its declared name as an identifier (6.5.7).
pub(crate) fn init_of<'a>(
    arena: &'a Arena,
    name: Read<'a>,
    declarator: Read<'a>,
    initial: Read<'a>,
    room: u32,
    next: &mut u32,
) -> Result<Read<'a>, ExprFault>
    requires name { name.height ≡ height_of (view name.tree.now) }
    requires declarator { declarator.height ≡ height_of (view declarator.tree.now) }
    requires initial { initial.height ≡ height_of (view initial.tree.now) }
    requires ids { next.old + 1 < 2 ^ 32 }
    ensures found { Gives result (made room (kinds.Initializer (kinds.Init (view name.entry.tree.now) (view declarator.entry.tree.now) (view initial.entry.tree.now))) (symbols_of initial.entry.rest.now)) }
    ensures node { Makes result next.old next.new declarator.entry.tree.now.first (nodes.Initializer (nodes.Init (node_of name.entry.tree.now) (node_of declarator.entry.tree.now) (node_of initial.entry.tree.now))) initial.entry.rest.now }
    ensures ids { (next.old ≤ next.new) × (next.new ≤ next.old + 1) × (left result ≤ length initial.entry.rest.now) }
{
    let highest = name.height.max(declarator.height).max(initial.height);
    let kind = Kind::Initializer(Initializer::Init {
        name: name.tree,
        declarator: declarator.tree,
        initial: initial.tree,
    });
    node(
        arena,
        kind,
        declarator.tree.first,
        highest,
        initial.rest,
        room,
        next,
    )
}

/// A declaration with its specifiers and declarators (6.5).
pub(crate) fn declaration_of<'a>(
    arena: &'a Arena,
    specs: Read<'a>,
    declarators: ReadList<'a>,
    room: u32,
    next: &mut u32,
) -> Result<Read<'a>, ExprFault>
    requires specs { specs.height ≡ height_of (view specs.tree.now) }
    requires declarators { declarators.height ≡ height_in (list_view declarators.trees) }
    requires ids { next.old + 1 < 2 ^ 32 }
    ensures found { Gives result (made room (kinds.Outer (kinds.Declaration (view specs.entry.tree.now) (list_view declarators.entry.trees))) (symbols_of declarators.entry.rest.now)) }
    ensures node { Makes result next.old next.new specs.entry.tree.now.first (nodes.Outer (nodes.Declaration (node_of specs.entry.tree.now) (nodes_of declarators.entry.trees))) declarators.entry.rest.now }
    ensures ids { (next.old ≤ next.new) × (next.new ≤ next.old + 1) × (left result ≤ length declarators.entry.rest.now) }
{
    let highest = specs.height.max(declarators.height);
    let kind = Kind::Outer(Outer::Declaration {
        specs: specs.tree,
        declarators: declarators.trees,
    });
    node(
        arena,
        kind,
        specs.tree.first,
        highest,
        declarators.rest,
        room,
        next,
    )
}

/// A function with its body (6.7.1).
pub(crate) fn function_of<'a>(
    arena: &'a Arena,
    specs: Read<'a>,
    declarator: Read<'a>,
    body: Read<'a>,
    room: u32,
    next: &mut u32,
) -> Result<Read<'a>, ExprFault>
    requires specs { specs.height ≡ height_of (view specs.tree.now) }
    requires declarator { declarator.height ≡ height_of (view declarator.tree.now) }
    requires body { body.height ≡ height_of (view body.tree.now) }
    requires ids { next.old + 1 < 2 ^ 32 }
    ensures found { Gives result (made room (kinds.Outer (kinds.Function (view specs.entry.tree.now) (view declarator.entry.tree.now) (view body.entry.tree.now))) (symbols_of body.entry.rest.now)) }
    ensures node { Makes result next.old next.new specs.entry.tree.now.first (nodes.Outer (nodes.Function (node_of specs.entry.tree.now) (node_of declarator.entry.tree.now) (node_of body.entry.tree.now))) body.entry.rest.now }
    ensures ids { (next.old ≤ next.new) × (next.new ≤ next.old + 1) × (left result ≤ length body.entry.rest.now) }
{
    let highest = specs.height.max(declarator.height).max(body.height);
    let kind = Kind::Outer(Outer::Function {
        specs: specs.tree,
        declarator: declarator.tree,
        body: body.tree,
    });
    node(
        arena,
        kind,
        specs.tree.first,
        highest,
        body.rest,
        room,
        next,
    )
}

/// A lone `;` (6.7).
pub(crate) fn empty_of<'a>(
    arena: &'a Arena,
    first: Place,
    rest: &'a [Token],
    room: u32,
    next: &mut u32,
) -> Result<Read<'a>, ExprFault>
    requires ids { next.old + 1 < 2 ^ 32 }
    ensures found { Gives result (made room (kinds.Outer kinds.Empty) (symbols_of rest.now)) }
    ensures node { Makes result next.old next.new first (nodes.Outer nodes.Empty) rest.now }
    ensures ids { (next.old ≤ next.new) × (next.new ≤ next.old + 1) × (left result ≤ length rest.now) }
{
    node(arena, Kind::Outer(Outer::Empty), first, 0, rest, room, next)
}
