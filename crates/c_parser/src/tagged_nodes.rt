//! Nodes of structures, unions, enumerations and members (ISO 9899:1990, 6.5.2), out of parts that were read.

ghost use Rattle.std.specs.Prelude.{◌≡◌, ◌+◌, ◌*◌, ◌<◌, ◌≤◌, ◌^◌, Some, length};
ghost use Rattle.std.specs.Option.{option_map};
ghost use Rattle.c_tree.specs.Symbol.{symbol_of, symbols_of};
ghost use Rattle.c_tree.specs.Syntax as kinds;
ghost use Rattle.c_tree.specs.Height.{height_of, height_in};
ghost use Rattle.c_tree.specs.Node as nodes;
ghost use Rattle.c_tree.specs.Views.{maybe_token, node_of, nodes_of};
ghost use Rattle.c_tree.specs.Forget.{view, list_view};
ghost use Rattle.c_grammar.specs.Found.{made};
ghost use Rattle.c_expr.specs.Gives.{Gives, left};
ghost use Rattle.c_expr.specs.Standing.{Makes};

use c_expr::{ExprFault, Read, ReadList, node, part};
use c_tree::{Arena, Kind, Place, Specifier, StructOrUnion, Token};

/// A structure or union without a body (6.5.2.3).
pub(crate) fn struct_tag_of<'a>(
    arena: &'a Arena,
    first: Place,
    which: StructOrUnion,
    tag: &'a Token,
    rest: &'a [Token],
    room: u32,
    next: &mut u32,
) -> Result<Read<'a>, ExprFault>
    requires ids { next.old + 1 < 2 ^ 32 }
    ensures found { Gives result (made room (kinds.Specifier (kinds.StructTag which (symbol_of tag.now))) (symbols_of rest.now)) }
    ensures node { Makes result next.old next.new first (nodes.Specifier (nodes.StructTag which tag.now)) rest.now }
    ensures ids { (next.old ≤ next.new) × (next.new ≤ next.old + 1) × (left result ≤ length rest.now) }
{
    let kind = Kind::Specifier(Specifier::StructTag { which, tag });
    node(arena, kind, first, 0, rest, room, next)
}

/// A structure or union with its members (6.5.2.1).
pub(crate) fn struct_body_of<'a>(
    arena: &'a Arena,
    first: Place,
    which: StructOrUnion,
    tag: Option<&'a Token>,
    members: ReadList<'a>,
    room: u32,
    next: &mut u32,
) -> Result<Read<'a>, ExprFault>
    requires members { members.height ≡ height_in (list_view members.trees) }
    requires ids { next.old + 1 < 2 ^ 32 }
    ensures found { Gives result (made room (kinds.Specifier (kinds.StructBody which (option_map symbol_of (maybe_token tag.entry)) (list_view members.entry.trees))) (symbols_of members.entry.rest.now)) }
    ensures node { Makes result next.old next.new first (nodes.Specifier (nodes.StructBody which (maybe_token tag.entry) (nodes_of members.entry.trees))) members.entry.rest.now }
    ensures ids { (next.old ≤ next.new) × (next.new ≤ next.old + 1) × (left result ≤ length members.entry.rest.now) }
{
    let kind = Kind::Specifier(Specifier::StructBody {
        which,
        tag,
        members: members.trees,
    });
    node(arena, kind, first, members.height, members.rest, room, next)
}

/// An enumeration without a body (6.5.2.3).
pub(crate) fn enum_tag_of<'a>(
    arena: &'a Arena,
    first: Place,
    tag: &'a Token,
    rest: &'a [Token],
    room: u32,
    next: &mut u32,
) -> Result<Read<'a>, ExprFault>
    requires ids { next.old + 1 < 2 ^ 32 }
    ensures found { Gives result (made room (kinds.Specifier (kinds.EnumTag (symbol_of tag.now))) (symbols_of rest.now)) }
    ensures node { Makes result next.old next.new first (nodes.Specifier (nodes.EnumTag tag.now)) rest.now }
    ensures ids { (next.old ≤ next.new) × (next.new ≤ next.old + 1) × (left result ≤ length rest.now) }
{
    let kind = Kind::Specifier(Specifier::EnumTag { tag });
    node(arena, kind, first, 0, rest, room, next)
}

/// An enumeration with its enumerators (6.5.2.2); `comma` is a comma behind the last.
pub(crate) fn enum_body_of<'a>(
    arena: &'a Arena,
    first: Place,
    tag: Option<&'a Token>,
    enumerators: ReadList<'a>,
    comma: bool,
    room: u32,
    next: &mut u32,
) -> Result<Read<'a>, ExprFault>
    requires enumerators { enumerators.height ≡ height_in (list_view enumerators.trees) }
    requires ids { next.old + 1 < 2 ^ 32 }
    ensures found { Gives result (made room (kinds.Specifier (kinds.EnumBody (option_map symbol_of (maybe_token tag.entry)) (list_view enumerators.entry.trees) comma)) (symbols_of enumerators.entry.rest.now)) }
    ensures node { Makes result next.old next.new first (nodes.Specifier (nodes.EnumBody (maybe_token tag.entry) (nodes_of enumerators.entry.trees) comma)) enumerators.entry.rest.now }
    ensures ids { (next.old ≤ next.new) × (next.new ≤ next.old + 1) × (left result ≤ length enumerators.entry.rest.now) }
{
    let kind = Kind::Specifier(Specifier::EnumBody {
        tag,
        enumerators: enumerators.trees,
        comma,
    });
    node(
        arena,
        kind,
        first,
        enumerators.height,
        enumerators.rest,
        room,
        next,
    )
}

/// Members that are declared together (6.5.2.1).
pub(crate) fn members_of<'a>(
    arena: &'a Arena,
    specs: Read<'a>,
    declarators: ReadList<'a>,
    room: u32,
    next: &mut u32,
) -> Result<Read<'a>, ExprFault>
    requires specs { specs.height ≡ height_of (view specs.tree.now) }
    requires declarators { declarators.height ≡ height_in (list_view declarators.trees) }
    requires ids { next.old + 1 < 2 ^ 32 }
    ensures found { Gives result (made room (kinds.Specifier (kinds.StructDeclaration (view specs.entry.tree.now) (list_view declarators.entry.trees))) (symbols_of declarators.entry.rest.now)) }
    ensures node { Makes result next.old next.new specs.entry.tree.now.first (nodes.Specifier (nodes.StructDeclaration (node_of specs.entry.tree.now) (nodes_of declarators.entry.trees))) declarators.entry.rest.now }
    ensures ids { (next.old ≤ next.new) × (next.new ≤ next.old + 1) × (left result ≤ length declarators.entry.rest.now) }
{
    let highest = specs.height.max(declarators.height);
    let kind = Kind::Specifier(Specifier::StructDeclaration {
        specs: specs.tree,
        declarators: declarators.trees,
    });
    node(
        arena,
        kind,
        specs.tree.first,
        highest,
        declarators.rest,
        room,
        next,
    )
}

/// A bit-field without a declarator (6.5.2.1).
pub(crate) fn bare_field_of<'a>(
    arena: &'a Arena,
    first: Place,
    width: Read<'a>,
    next: &mut u32,
) -> Result<Read<'a>, ExprFault>
    requires width { width.height ≡ height_of (view width.tree.now) }
    requires low { width.height + 1 < 2 ^ 32 }
    requires ids { next.old + 1 < 2 ^ 32 }
    ensures found { Gives result (Some (kinds.Specifier (kinds.BitField kinds.absent (view width.entry.tree.now)), symbols_of width.entry.rest.now)) }
    ensures node { Makes result next.old next.new first (nodes.Specifier (nodes.BitField nodes.absent (node_of width.entry.tree.now))) width.entry.rest.now }
    ensures ids { (next.old ≤ next.new) × (next.new ≤ next.old + 1) × (left result ≤ length width.entry.rest.now) }
{
    let kind = Kind::Specifier(Specifier::BitField {
        declarator: None,
        width: width.tree,
    });
    part(arena, kind, first, width.height + 1, width.rest, next)
}

/// A bit-field with its declarator (6.5.2.1).
pub(crate) fn field_of<'a>(
    arena: &'a Arena,
    declarator: Read<'a>,
    width: Read<'a>,
    next: &mut u32,
) -> Result<Read<'a>, ExprFault>
    requires declarator { declarator.height ≡ height_of (view declarator.tree.now) }
    requires width { width.height ≡ height_of (view width.tree.now) }
    requires low { (declarator.height + 1 < 2 ^ 32) × (width.height + 1 < 2 ^ 32) }
    requires ids { next.old + 1 < 2 ^ 32 }
    ensures found { Gives result (Some (kinds.Specifier (kinds.BitField (kinds.present (view declarator.entry.tree.now)) (view width.entry.tree.now)), symbols_of width.entry.rest.now)) }
    ensures node { Makes result next.old next.new declarator.entry.tree.now.first (nodes.Specifier (nodes.BitField (nodes.present (node_of declarator.entry.tree.now)) (node_of width.entry.tree.now))) width.entry.rest.now }
    ensures ids { (next.old ≤ next.new) × (next.new ≤ next.old + 1) × (left result ≤ length width.entry.rest.now) }
{
    let highest = declarator.height.max(width.height);
    let kind = Kind::Specifier(Specifier::BitField {
        declarator: Some(declarator.tree),
        width: width.tree,
    });
    part(
        arena,
        kind,
        declarator.tree.first,
        highest + 1,
        width.rest,
        next,
    )
}
