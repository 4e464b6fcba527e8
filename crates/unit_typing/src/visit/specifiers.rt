//! The visit of type names, specifiers and members (ISO 9899:1990, 6.5.2, 6.5.5).

ghost use Rattle.std.specs.Prelude.{◌≡◌, Ok, IfOk};
ghost use Rattle.c_tree.specs.declared.place.Place.{Place};
ghost use Rattle.c_tree.specs.Node.{Node};
ghost use Rattle.c_tree.specs.Node as nodes;
ghost use Rattle.c_tree.specs.Views.{maybe_token, node_of, nodes_of, option_node, specifier_shape};
ghost use Rattle.type_rules.specs.Declarators as declaring;
ghost use Rattle.type_rules.specs.Moves.{behind_members, behind_specifier, closed};
ghost use Rattle.type_rules.specs.Moves as moves;
ghost use Rattle.type_rules.specs.Options.{◌>>=◌ as and_then, unless_fault};
ghost use Rattle.type_rules.specs.Roles as held_roles;
ghost use Rattle.type_rules.specs.Rows.{fine_unless, first_clash, members_row};
ghost use Rattle.type_rules.specs.Scopes as held;
ghost use Rattle.type_rules.specs.Ways.ScopesByCase.{scoped, scoped_each, scoped_maybe, within_specifier};
ghost use Rattle.type_rules.specs.Specified as specified;
ghost use Rattle.type_rules.specs.Ways.TablesByCase.{filled, filled_each, filled_maybe, filled_specifier};
ghost use Rattle.type_rules.specs.Tags.{body_fault, body_number, body_opened, mentioned, sort_of, tag_fault};
ghost use Rattle.type_rules.specs.Ways.TypesByCase.{typed, typed_each, typed_maybe, typed_specifier};
ghost use Rattle.type_rules.specs.Types.{Void};
ghost use Rattle.typed_unit.specs.Tables.{table_of};
ghost use Rattle.type_values.specs.Types.{ctype_of};
ghost use Rattle.unit_typing.specs.Faults.{Gives};
ghost use Rattle.unit_typing.specs.Mentions.{mention_of};
ghost use Rattle.unit_typing.specs.Roles.{role_of};
ghost use Rattle.unit_typing.specs.Scopes.{completed, scopes_of, with_members};
ghost use Rattle.unit_typing.specs.Views.{tag_sort};

use super::{type_each, type_maybe, type_tree};
use crate::checks::{check_members, inner_members};
use crate::declarators::around_maybe;
use crate::faults::TypeFault;
use crate::mentions::{
    Mention, body_number, check_body, check_tag, declare_tag, open_body, sort_of,
};
use crate::roles::Role;
use crate::scopes::Scopes;
use crate::specified::specified_type;
use crate::tags::Sort;
use c_tree::{Arena, Specifier, StructOrUnion, Token, Tree, Trees};
use type_values::Ty;
use typed_unit::Table;

/// Mentions a tag without a body, unless it may not be mentioned so here.
fn mention_tag<'a>(
    scopes: &mut Scopes<'a>,
    how: Mention,
    sort: Sort,
    tag: &Token,
) -> Result<Ty<'a>, TypeFault>
    ensures gives { Gives result (fine_unless (tag_fault (scopes_of scopes.old) (mention_of how) (tag_sort sort) tag.now)) }
    ensures scopes { IfOk result (λ _. scopes_of scopes.new ≡ mentioned (scopes_of scopes.old) (mention_of how) (tag_sort sort) tag.now.name) }
{
    check_tag(scopes, how, sort, tag)?;
    declare_tag(scopes, how, sort, tag.name)?;
    Ok(Ty::Void)
}

/// Gives the members of a member without a name to the outer structure or union, unless that has one of them already.
fn pass_members_on<'a>(scopes: &mut Scopes<'a>, owner: u32, ty: Ty<'a>) -> Result<Ty<'a>, TypeFault>
    ensures gives { Gives result (fine_unless (first_clash (scopes_of scopes.old) (moves.inner_members (scopes_of scopes.old) owner (ctype_of ty.entry)))) }
    ensures scopes { IfOk result (λ _. scopes_of scopes.new ≡ with_members (scopes_of scopes.old) (moves.inner_members (scopes_of scopes.old) owner (ctype_of ty.entry))) }
{
    let members = inner_members(scopes, owner, ty)?;
    check_members(scopes, &members)?;
    scopes.add_members(&members)?;
    Ok(Ty::Void)
}

/// Ends a declaration of members with specifiers of this type: where it declares none by name, it may be one itself.
#[tactic(auto, using(crate::proofs::UnnamedMembers::unnamed))]
fn end_members<'a>(
    scopes: &mut Scopes<'a>,
    role: Role<'a>,
    ty: Ty<'a>,
    declarators: &Trees,
) -> Result<Ty<'a>, TypeFault>
    ensures gives { (v : held.Scopes) (specs : Node) → ctype_of ty.entry ≡ specified.specified_type v specs → Gives result (members_row v (scopes_of scopes.old) (role_of role.entry) specs (nodes_of declarators.now)) }
    ensures scopes { IfOk result (λ _. (v : held.Scopes) (specs : Node) → ctype_of ty.entry ≡ specified.specified_type v specs → scopes_of scopes.new ≡ behind_members v (role_of role.entry) specs (nodes_of declarators.now) (scopes_of scopes.old)) }
{
    if declarators.all.is_empty() {
        return pass_members_on(scopes, role.owner(), ty);
    }
    Ok(Ty::Void)
}

/// Types a structure or union with its members, which is complete behind them.
#[cycle(typing)]
fn type_body<'a>(
    arena: &'a Arena,
    scopes: &mut Scopes<'a>,
    which: StructOrUnion,
    tag: Option<&Token>,
    members: &Trees<'a>,
    table: &mut Table<'a>,
) -> Result<Ty<'a>, TypeFault>
    ensures gives { let v = scopes_of scopes.old in Gives result (unless_fault (body_fault v (sort_of which) (maybe_token tag.entry)) (and_then (typed_each (body_opened v (sort_of which) (maybe_token tag.entry)) (held_roles.Inside (body_number v (sort_of which) (maybe_token tag.entry))) (nodes_of members.now)) (λ _. Ok Void))) }
    ensures scopes { IfOk result (λ _. let v = scopes_of scopes.old in scopes_of scopes.new ≡ completed (scoped_each (body_opened v (sort_of which) (maybe_token tag.entry)) (held_roles.Inside (body_number v (sort_of which) (maybe_token tag.entry))) (nodes_of members.now)) (body_number v (sort_of which) (maybe_token tag.entry))) }
    ensures table { IfOk result (λ _. let v = scopes_of scopes.old in table_of table.new ≡ filled_each (body_opened v (sort_of which) (maybe_token tag.entry)) (held_roles.Inside (body_number v (sort_of which) (maybe_token tag.entry))) (nodes_of members.now) (table_of table.old)) }
{
    let sort = sort_of(which);
    let owner = body_number(scopes, sort, tag);
    check_body(scopes, sort, tag)?;
    open_body(scopes, sort, tag)?;
    type_each(arena, scopes, Role::Inside { owner }, members, table)?;
    scopes.complete(owner)?;
    Ok(Ty::Void)
}

/// Types a declaration of members. What its specifiers say is asked before they are visited.
#[cycle(typing)]
fn type_members<'a>(
    arena: &'a Arena,
    scopes: &mut Scopes<'a>,
    role: Role<'a>,
    specs: &Tree<'a>,
    declarators: &Trees<'a>,
    table: &mut Table<'a>,
) -> Result<Ty<'a>, TypeFault>
    ensures gives { (p : Place) → Gives result (typed_specifier (scopes_of scopes.old) (role_of role.entry) p (nodes.StructDeclaration (node_of specs.now) (nodes_of declarators.now))) }
    ensures scopes { IfOk result (λ _. scopes_of scopes.new ≡ behind_specifier (scopes_of scopes.old) (role_of role.entry) (nodes.StructDeclaration (node_of specs.now) (nodes_of declarators.now)) (within_specifier (scopes_of scopes.old) (role_of role.entry) (nodes.StructDeclaration (node_of specs.now) (nodes_of declarators.now)))) }
    ensures table { IfOk result (λ _. table_of table.new ≡ filled_specifier (scopes_of scopes.old) (role_of role.entry) (nodes.StructDeclaration (node_of specs.now) (nodes_of declarators.now)) (table_of table.old)) }
{
    let ty = specified_type(arena, scopes, specs)?;
    let owner = role.owner();
    type_tree(arena, scopes, Role::Plain, specs, table)?;
    type_each(
        arena,
        scopes,
        Role::Member { owner, ty },
        declarators,
        table,
    )?;
    end_members(scopes, role, ty, declarators)
}

/// Types a type name, which has a type of its own.
#[cycle(typing)]
fn type_type_name<'a>(
    arena: &'a Arena,
    scopes: &mut Scopes<'a>,
    specs: &Tree<'a>,
    declarator: Option<&Tree<'a>>,
    table: &mut Table<'a>,
) -> Result<Ty<'a>, TypeFault>
    ensures gives { let v = scopes_of scopes.old in Gives result (and_then (typed v held_roles.Plain (node_of specs.now)) (λ _. and_then (typed_maybe (scoped v held_roles.Plain (node_of specs.now)) held_roles.Plain (option_node declarator.entry)) (λ _. Ok (declaring.around_maybe (option_node declarator.entry) (specified.specified_type v (node_of specs.now)))))) }
    ensures scopes { IfOk result (λ _. let v = scopes_of scopes.old in scopes_of scopes.new ≡ scoped_maybe (scoped v held_roles.Plain (node_of specs.now)) held_roles.Plain (option_node declarator.entry)) }
    ensures table { IfOk result (λ _. let v = scopes_of scopes.old in table_of table.new ≡ filled_maybe (scoped v held_roles.Plain (node_of specs.now)) held_roles.Plain (option_node declarator.entry) (filled v held_roles.Plain (node_of specs.now) (table_of table.old))) }
{
    let ty = specified_type(arena, scopes, specs)?;
    type_tree(arena, scopes, Role::Plain, specs, table)?;
    type_maybe(arena, scopes, Role::Plain, declarator, table)?;
    Ok(around_maybe(arena, declarator, ty)?)
}

/// Types a parameter, whose declarator declares it.
#[cycle(typing)]
fn type_param<'a>(
    arena: &'a Arena,
    scopes: &mut Scopes<'a>,
    specs: &Tree<'a>,
    declarator: Option<&Tree<'a>>,
    table: &mut Table<'a>,
) -> Result<Ty<'a>, TypeFault>
    ensures gives { let v = scopes_of scopes.old in Gives result (and_then (typed v held_roles.Plain (node_of specs.now)) (λ _. and_then (typed_maybe (scoped v held_roles.Plain (node_of specs.now)) (held_roles.Formal (specified.specified_type v (node_of specs.now))) (option_node declarator.entry)) (λ _. Ok Void))) }
    ensures scopes { IfOk result (λ _. let v = scopes_of scopes.old in scopes_of scopes.new ≡ scoped_maybe (scoped v held_roles.Plain (node_of specs.now)) (held_roles.Formal (specified.specified_type v (node_of specs.now))) (option_node declarator.entry)) }
    ensures table { IfOk result (λ _. let v = scopes_of scopes.old in table_of table.new ≡ filled_maybe (scoped v held_roles.Plain (node_of specs.now)) (held_roles.Formal (specified.specified_type v (node_of specs.now))) (option_node declarator.entry) (filled v held_roles.Plain (node_of specs.now) (table_of table.old))) }
{
    let ty = specified_type(arena, scopes, specs)?;
    type_tree(arena, scopes, Role::Plain, specs, table)?;
    type_maybe(arena, scopes, Role::Formal { ty }, declarator, table)?;
    Ok(Ty::Void)
}

/// Types an enumeration with its enumerators, each of which is in force from its end on.
#[cycle(typing)]
fn type_enumeration<'a>(
    arena: &'a Arena,
    scopes: &mut Scopes<'a>,
    tag: Option<&Token>,
    enumerators: &Trees<'a>,
    table: &mut Table<'a>,
) -> Result<Ty<'a>, TypeFault>
    ensures gives { let v = scopes_of scopes.old in Gives result (unless_fault (body_fault v held.Enums (maybe_token tag.entry)) (and_then (typed_each (body_opened v held.Enums (maybe_token tag.entry)) held_roles.Plain (nodes_of enumerators.now)) (λ _. Ok Void))) }
    ensures scopes { IfOk result (λ _. let v = scopes_of scopes.old in scopes_of scopes.new ≡ scoped_each (body_opened v held.Enums (maybe_token tag.entry)) held_roles.Plain (nodes_of enumerators.now)) }
    ensures table { IfOk result (λ _. let v = scopes_of scopes.old in table_of table.new ≡ filled_each (body_opened v held.Enums (maybe_token tag.entry)) held_roles.Plain (nodes_of enumerators.now) (table_of table.old)) }
{
    check_body(scopes, Sort::Enums, tag)?;
    open_body(scopes, Sort::Enums, tag)?;
    type_each(arena, scopes, Role::Plain, enumerators, table)?;
    Ok(Ty::Void)
}

/// Types a type name, specifiers or members. What specifiers say is asked before they are visited.
#[cycle(typing)]
pub(crate) fn type_specifier<'a>(
    arena: &'a Arena,
    scopes: &mut Scopes<'a>,
    role: Role<'a>,
    kind: &Specifier<'a>,
    table: &mut Table<'a>,
) -> Result<Ty<'a>, TypeFault>
    ensures gives { (p : Place) → Gives result (typed_specifier (scopes_of scopes.old) (role_of role.entry) p (specifier_shape kind.now)) }
    ensures scopes { IfOk result (λ _. scopes_of scopes.new ≡ closed (scopes_of scopes.old) (role_of role.entry) (nodes.Specifier (specifier_shape kind.now)) (within_specifier (scopes_of scopes.old) (role_of role.entry) (specifier_shape kind.now))) }
    ensures table { IfOk result (λ _. table_of table.new ≡ filled_specifier (scopes_of scopes.old) (role_of role.entry) (specifier_shape kind.now) (table_of table.old)) }
{
    match kind {
        Specifier::TypeName { specs, declarator } => {
            type_type_name(arena, scopes, specs, *declarator, table)
        }
        Specifier::Specs { items } => {
            type_each(arena, scopes, role.of_item(items), items, table)?;
            Ok(Ty::Void)
        }
        Specifier::StructTag { which, tag } => {
            mention_tag(scopes, role.mention(), sort_of(*which), tag)
        }
        Specifier::StructBody {
            which,
            tag,
            members,
        } => { type_body(arena, scopes, *which, *tag, members, table) }
        Specifier::EnumTag { tag } => mention_tag(scopes, role.mention(), Sort::Enums, tag),
        Specifier::EnumBody {
            tag,
            enumerators,
            ..
        } => { type_enumeration(arena, scopes, *tag, enumerators, table) }
        Specifier::StructDeclaration { specs, declarators } => {
            type_members(arena, scopes, role, specs, declarators, table)
        }
        Specifier::BitField { declarator, width } => {
            type_maybe(arena, scopes, role, *declarator, table)?;
            type_tree(arena, scopes, Role::Plain, width, table)?;
            Ok(Ty::Void)
        }
        Specifier::Param { specs, declarator } => {
            type_param(arena, scopes, specs, *declarator, table)
        }
    }
}
